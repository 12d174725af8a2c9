//! The journal's text.

ghost use Rattle.std.specs.Prelude.{◌≡◌, ◌++◌, ◌∷◌, [], replicate, IfOk, OnOk};
ghost use Rattle.std.specs.Fmt.{decimal};
ghost use Rattle.kt_play.specs.Journal as spec;

use itoa::Buffer;
use kt_lone::mark::{Closed, End, Mark};
use kt_mem::Trap;
use std::alloc::{AllocError, Global};

/// The journal of so many turns of thread 0 and of these marks.
pub fn journal(alloc: Global, turns: u32, marks: &[Mark]) -> Result<Vec<u8>, AllocError>
    ensures { IfOk result (λ text. text.items ≡ spec.journal_of (replicate turns 0) marks.now) }
{
    let mut text = Vec::from_slice(alloc, b"kit 1\n")?;
    let mut made = 0;
    let mut left = turns;
    for mark in marks {
        let turn = turn_of(mark);
        let count = turn.saturating_sub(made).min(left);
        push_turns(&mut text, count)?;
        push_mark(&mut text, mark)?;
        made = turn;
        left -= count;
    }
    push_turns(&mut text, left)?;
    Ok(text)
}

fn turn_of(mark: &Mark) -> u32
    ensures { result ≡ spec.turn_of mark.now }
{
    match mark {
        Mark::Ask { turn, .. }
        | Mark::Close { turn, .. }
        | Mark::MainThere { turn, .. }
        | Mark::Back { turn, .. }
        | Mark::End { turn, .. } => *turn,
    }
}

fn push_turns(text: &mut Vec<u8>, count: u32) -> Result<(), AllocError>
    ensures { OnOk result (text.new.items ≡ text.old.items ++ spec.turn_lines (replicate count 0)) }
{
    if count == 0 {
        return Ok(());
    }
    push_stretch(text, 0, count)
}

fn push_stretch(text: &mut Vec<u8>, thread: u8, count: u32) -> Result<(), AllocError>
    ensures { OnOk result (text.new.items ≡ text.old.items ++ spec.stretch_lines (record { thread = thread; count = count } ∷ [])) }
{
    let mut buffer = Buffer::new();
    text.extend_from_slice(b"turn ")?;
    text.extend_from_slice(buffer.format(thread).as_bytes())?;
    text.extend_from_slice(b" ")?;
    text.extend_from_slice(buffer.format(count).as_bytes())?;
    text.extend_from_slice(b"\n")?;
    Ok(())
}

fn push_mark(text: &mut Vec<u8>, mark: &Mark) -> Result<(), AllocError>
    ensures { OnOk result (text.new.items ≡ text.old.items ++ spec.mark_line mark.now) }
{
    match *mark {
        Mark::Ask { k, .. } => push_numbered(text, b"ask ", k, b"\n"),
        Mark::Close { k, closed, .. } => {
            push_numbered(text, b"close ", k, b"")?;
            push_closed(text, closed)
        }
        Mark::MainThere { k, .. } => push_numbered(text, b"main ", k, b"\n"),
        Mark::Back { k, .. } => push_numbered(text, b"back ", k, b"\n"),
        Mark::End { how, .. } => push_end(text, how),
    }
}

fn push_numbered(text: &mut Vec<u8>, word: &[u8], number: u8, end: &[u8]) -> Result<(), AllocError>
    ensures { OnOk result (text.new.items ≡ text.old.items ++ (word.now ++ (decimal number ++ end.now))) }
{
    let mut buffer = Buffer::new();
    text.extend_from_slice(word)?;
    text.extend_from_slice(buffer.format(number).as_bytes())?;
    text.extend_from_slice(end)?;
    Ok(())
}

fn push_closed(text: &mut Vec<u8>, closed: Closed) -> Result<(), AllocError>
    ensures { OnOk result (text.new.items ≡ text.old.items ++ spec.closed_line closed) }
{
    let mut buffer = Buffer::new();
    match closed {
        Closed::Ok(images) => {
            text.extend_from_slice(b" ok ")?;
            text.extend_from_slice(buffer.format(images).as_bytes())?;
            text.extend_from_slice(b"\n")?;
            Ok(())
        }
        Closed::Point(thread) => push_numbered(text, b" refused point ", thread, b"\n"),
    }
}

fn push_end(text: &mut Vec<u8>, how: End) -> Result<(), AllocError>
    ensures { OnOk result (text.new.items ≡ text.old.items ++ spec.end_line how) }
{
    let mut buffer = Buffer::new();
    match how {
        End::Main(value) => {
            text.extend_from_slice(b"end main ")?;
            text.extend_from_slice(buffer.format(value).as_bytes())?;
            text.extend_from_slice(b"\n")?;
            Ok(())
        }
        End::Trap(thread, cause) => {
            push_numbered(text, b"end trap ", thread, b" ")?;
            text.extend_from_slice(trap_name(cause).as_bytes())?;
            text.extend_from_slice(b"\n")?;
            Ok(())
        }
        End::Stuck => {
            text.extend_from_slice(b"end stuck\n")?;
            Ok(())
        }
        End::Budget => {
            text.extend_from_slice(b"end budget\n")?;
            Ok(())
        }
    }
}

fn trap_name(trap: Trap) -> &'static str
    ensures { result.now ≡ spec.trap_name trap }
{
    match trap {
        Trap::Overflow => "overflow",
        Trap::Zero => "zero",
        Trap::Range => "range",
        Trap::Null => "null",
        Trap::Dead => "dead",
        Trap::Bounds => "bounds",
        Trap::Uninit => "uninit",
        Trap::Literal => "literal",
        Trap::Free => "free",
        Trap::Mutex => "mutex",
        Trap::Thread => "thread",
        Trap::Threads => "threads",
        Trap::Size => "size",
        Trap::Heap => "heap",
        Trap::Depth => "depth",
        Trap::Output => "output",
    }
}
