//! Tests of the types, with ample memory.
use kt_code::{Code, Entries, Frame, Frames, Instr, Instrs, Locals, Operands, Private};
use kt_mem::{KeptLocal, KeptLocals, Mode, Stored, Value};
use kt_types::Points;
use std::alloc::{AllocError, Global};
use std::test::Fail;

/// A number, as it is kept.
fn num(n: i64) -> Stored {
    Stored::of(Value::Num(n))
}

/// A state with three calls open.
fn private_state(alloc: Global) -> Result<Private, AllocError> {
    let mut frames = Frames::new(alloc);
    for function in 0..3 {
        frames.push(Frame {
            function,
            at: 10 * function,
            locals: Locals::from_vec(vec![in alloc; Stored::of(Value::Undef), num(5)]?),
        })?;
    }
    let mut operands = Operands::new(alloc);
    for n in 0..10 {
        operands.push(num(n))?;
    }
    let kept = vec![in alloc;
        KeptLocal {
            function: 1,
            local: 0,
            value: Value::Num(9)
        },
    ]?;
    Ok(Private {
        version: 2,
        frames,
        operands,
        mode: Mode::Updating(1),
        locals: KeptLocals::from_vec(kept),
    })
}

#[test]
fn private_states_are_compared(rt: HostRuntime) -> Result<(), Fail> {
    let private = private_state(rt.alloc())?;
    let mut copy = private.copy()?;
    assert!(rt; private.is(&copy));
    copy.mode = Mode::Updating(0);
    assert!(rt; !private.is(&copy));
    copy = private.copy()?;
    copy.operands.discard(1);
    assert!(rt; !private.is(&copy));
    copy = private.copy()?;
    copy.frames.pop();
    assert!(rt; !private.is(&copy));
    copy = private.copy()?;
    copy.locals = KeptLocals::from_vec(Vec::new(rt.alloc()));
    assert!(rt; !private.is(&copy));
    Ok(())
}

#[test]
fn private_states_are_copied(rt: HostRuntime) -> Result<(), Fail> {
    let private = private_state(rt.alloc())?;
    let mut copy = private.copy()?;
    assert_eq!(rt;
        (
            copy.version,
            copy.mode,
            copy.locals.as_slice().len(),
            copy.frames.count(),
        ),
        (2, Mode::Updating(1), 1, 3)
    );
    let at = copy.frames.pop().map(|frame| frame.at);
    let function = copy.frames.first().map(|frame| frame.function);
    assert_eq!(rt; (at, function), (Some(20), Some(1)));
    let third = copy.operands.get(2).map(|v| v.value());
    copy.operands.discard(8);
    assert_eq!(rt;
        (third, copy.operands.len(), copy.operands.get(2).is_some()),
        (Some(Value::Num(7)), 2, false)
    );
    let count = private.operands.len();
    assert_eq!(rt; count, 10);
    let last = private.operands.last(2);
    let is_last = last
        .iter()
        .map(|v| v.value())
        .eq([Value::Num(8), Value::Num(9)]);
    assert!(rt; is_last);
    Ok(())
}

#[test]
fn operands_change_at_the_top(rt: HostRuntime) -> Result<(), Fail> {
    let mut operands = Operands::new(rt.alloc());
    for n in 0..4 {
        operands.push(num(n))?;
    }
    let count = operands.len();
    assert_eq!(rt; count, 4);
    let (a, b) = operands.first_two();
    assert_eq!(rt; (a.number(), b.number()), (Some(2), Some(3)));
    operands.replace_two(num(5));
    operands.replace(num(6));
    operands.drop_first();
    assert_eq!(rt; (operands.first().number(), operands.len()), (Some(1), 2));
    Ok(())
}

#[test]
fn locals_are_set(rt: HostRuntime) -> Result<(), Fail> {
    let mut locals = Locals::from_vec(vec![in rt.alloc(); num(1), num(2)]?);
    locals.set(1, num(7));
    locals.set(2, num(8));
    let second = locals.get(1).map(|v| v.value());
    assert_eq!(rt;
        (second, locals.get(2).is_some(), locals.as_slice().len()),
        (Some(Value::Num(7)), false, 2)
    );
    assert_eq!(rt; locals.into_vec().len(), 2);
    Ok(())
}

#[test]
fn code_grows(rt: HostRuntime) -> Result<(), Fail> {
    let alloc = rt.alloc();
    let entries = Entries::from_vec(vec![in alloc; 0]?);
    let mut code = Code::new(
        Instrs::from_vec(Vec::new(alloc)),
        entries,
        Points::from_vec(Vec::new(alloc), 0),
    );
    code.append(vec![in alloc; Instr::Number(7), Instr::Return]?)?;
    assert!(rt; matches!(code.instrs(), [Instr::Number(7), Instr::Return]));
    assert_eq!(rt;
        (code.entries(), code.points().as_slice().len()),
        ([0].as_slice(), 0)
    );
    assert_eq!(rt; (code.entry(0), code.entry(1)), (Some(0), None));
    Ok(())
}
