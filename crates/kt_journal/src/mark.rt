//! Writes the lines of marks.

ghost use Rattle.std.specs.Prelude.{◌≡◌, ◌++◌, ◌∷◌, [], codes, OnOk};
ghost use Rattle.std.specs.Fmt.{decimal};
ghost use Rattle.std.specs.List.{list_any};
ghost use Rattle.std.specs.Option.{option_copied};
ghost use Rattle.kt_text.specs.Lines.{line_of};
ghost use Rattle.kt_world.specs.Told.{is_update};
ghost use Rattle.kt_journal.specs.Marks as spec;

use super::kit::Kit;
use super::names::trap_name;
use super::refusal::push_fault;
use itoa::Buffer;
use kt_text::push_line;
use kt_tree::Version;
use kt_world::{Closed, End, Mark};
use std::alloc::AllocError;

/// The form of the journal of these marks.
pub fn kit_of(marks: &[Mark]) -> Kit
    ensures { result ≡ spec.kit_of marks.now }
{
    if any_wakes(marks) {
        Kit::Second
    } else {
        Kit::First
    }
}

fn any_wakes(marks: &[Mark]) -> bool
    ensures { result ≡ list_any spec.wakes marks.now }
{
    marks.iter().any(|mark| wakes(mark))
}

/// Whether it is a request that woke a thread.
fn wakes(mark: &Mark) -> bool
    ensures { result ≡ spec.wakes mark.now }
{
    match mark {
        Mark::Ask { woken, .. } => *woken > 0,
        _ => false,
    }
}

/// The turns that were made before a mark.
pub fn turn_of(mark: &Mark) -> u32
    ensures { result ≡ spec.turn_of mark.now }
{
    match mark {
        Mark::Ask { turn, .. }
        | Mark::Close { turn, .. }
        | Mark::MainThere { turn, .. }
        | Mark::Back { turn, .. }
        | Mark::End { turn, .. } => *turn,
    }
}

/// Whether an update was made.
pub fn is_update(mark: &Mark) -> bool
    ensures { result ≡ is_update mark.now }
{
    match mark {
        Mark::Close {
            closed: Closed::Ok(_),
            ..
        } => true,
        _ => false,
    }
}

/// The line of a mark, where the next update is one to this version.
pub fn push_mark(
    text: &mut Vec<u8>,
    kit: Kit,
    new: Option<&Version>,
    mark: &Mark,
) -> Result<(), AllocError>
    ensures { OnOk result (text.new.items ≡ text.old.items ++ line_of (spec.mark_words kit (option_copied new.entry) mark.now)) }
{
    match *mark {
        Mark::Ask { k, woken, .. } => push_ask(text, kit, k, woken),
        Mark::Close { k, closed, .. } => push_closed(text, new, k, closed),
        Mark::MainThere { k, .. } => push_numbered(text, b"main", k),
        Mark::Back { k, .. } => push_numbered(text, b"back", k),
        Mark::End { how, .. } => push_end(text, how),
    }
}

fn push_numbered(text: &mut Vec<u8>, word: &[u8], number: u8) -> Result<(), AllocError>
    ensures { OnOk result (text.new.items ≡ text.old.items ++ line_of (word.now ∷ decimal number ∷ [])) }
{
    let mut buffer = Buffer::new();
    push_line(text, &[word, buffer.format(number).as_bytes()])
}

fn push_ask(text: &mut Vec<u8>, kit: Kit, request: u8, woken: u8) -> Result<(), AllocError>
    ensures { OnOk result (text.new.items ≡ text.old.items ++ line_of (spec.ask_words kit request woken)) }
{
    match kit {
        Kit::First => push_numbered(text, b"ask", request),
        Kit::Second => {
            let (mut first, mut second) = (Buffer::new(), Buffer::new());
            push_line(
                text,
                &[
                    b"ask",
                    first.format(request).as_bytes(),
                    second.format(woken).as_bytes(),
                ],
            )
        }
    }
}

fn push_closed(
    text: &mut Vec<u8>,
    new: Option<&Version>,
    request: u8,
    closed: Closed,
) -> Result<(), AllocError>
    ensures { OnOk result (text.new.items ≡ text.old.items
        ++ line_of (codes "close" ∷ decimal request ∷ spec.closed_words (option_copied new.entry) closed)) }
{
    let (mut first, mut second) = (Buffer::new(), Buffer::new());
    let request = first.format(request).as_bytes();
    match closed {
        Closed::Ok(images) => push_line(
            text,
            &[b"close", request, b"ok", second.format(images).as_bytes()],
        ),
        Closed::Held => push_line(text, &[b"close", request, b"refused", b"held"]),
        Closed::Point(thread) => push_line(
            text,
            &[
                b"close",
                request,
                b"refused",
                b"point",
                second.format(thread).as_bytes(),
            ],
        ),
        Closed::Entry(thread) => push_line(
            text,
            &[
                b"close",
                request,
                b"refused",
                b"entry",
                second.format(thread).as_bytes(),
            ],
        ),
        Closed::At(fault) => push_fault(text, request, new, fault),
        Closed::Size => push_line(text, &[b"close", request, b"refused", b"size"]),
    }
}

fn push_end(text: &mut Vec<u8>, how: End) -> Result<(), AllocError>
    ensures { OnOk result (text.new.items ≡ text.old.items ++ line_of (spec.end_words how)) }
{
    let mut buffer = Buffer::new();
    match how {
        End::Main(value) => push_line(text, &[b"end", b"main", buffer.format(value).as_bytes()]),
        End::Trap(thread, cause) => push_line(
            text,
            &[
                b"end",
                b"trap",
                buffer.format(thread).as_bytes(),
                trap_name(cause).as_bytes(),
            ],
        ),
        End::Stuck => push_line(text, &[b"end", b"stuck"]),
        End::Budget => push_line(text, &[b"end", b"budget"]),
    }
}
