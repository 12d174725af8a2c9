//! A thread in code, and the laws called.

use kt_meaning::{
    Part, Parts, TreeFrame, TreeFrames, TreeThread, effect_law, order_law, worked_programs_law,
};
use kt_mem::{KeptLocals, Mode, Value, Values};
use std::test::Fail;

#[test]
fn lists(rt: HostRuntime) -> Result<(), Fail> {
    let alloc = rt.alloc();
    let mut parts = Vec::new(alloc);
    parts.push(Part::Have(Value::Num(1)))?;
    let parts = Parts::from_vec(parts);
    assert_eq!(rt; parts.as_slice().len(), 1);
    let mut frames = Vec::new(alloc);
    frames.push(TreeFrame {
        function: 0,
        locals: Values::from_vec(Vec::new(alloc)),
        work: parts,
    })?;
    let frames = TreeFrames::from_vec(frames);
    assert_eq!(rt; frames.as_slice().len(), 1);
    let thread = TreeThread {
        frames,
        mode: Mode::Normal,
        locals: KeptLocals::from_vec(Vec::new(alloc)),
    };
    assert_eq!(rt; thread.frames.into_vec().len(), 1);
    Ok(())
}

#[test]
fn laws(_rt: HostRuntime) {
    effect_law();
    worked_programs_law();
    order_law();
}
