//! What a call of `play` answers.

ghost use Rattle.std.specs.Prelude.{◌≡◌};
ghost use Rattle.kt_play.specs.Status.{cause_name, cause_place, exit_of};

use crate::refusal::Refusal;
use crate::report::RunFault;
use kt_lone::mark::End;
use kt_mem::Trap;

/// What was to be read.
#[derive(Clone, Copy, PartialEq, Eq, Debug)]
pub enum Which {
    /// The file of that number among the words, counted from 1.
    File(u8),
    /// The program's input.
    Input,
}

/// Why a file is refused. The number is the place of the fault, in bytes.
#[derive(Clone, Copy, PartialEq, Eq, Debug)]
pub enum Cause {
    /// A byte that begins no token.
    Byte(u32),
    /// A comment, character or string that isn't closed.
    Unclosed(u32),
    /// A number, character or string that is none.
    Literal(u32),
    /// A directive other than `#include`.
    Directive(u32),
    /// A token with which no file goes on.
    Syntax(u32),
    /// A token inside more than 200 constructs.
    TooDeep(u32),
    /// A name or field that is not there.
    Unknown(u32),
    /// A name that its scope has already, a second definition, or the name of a built-in call.
    Twice(u32),
    /// What breaks a rule of types.
    BadType(u32),
    /// A struct without a definition where its cells are needed.
    Incomplete(u32),
    /// An array, struct or global with too many cells, or an array without elements.
    TooBig(u32),
    /// What a thread can't begin at.
    Entry(u32),
    /// A local that an update can't keep.
    Note(u32),
    /// There is no function `int main(void)`; the place is the file's length.
    NoMain(u32),
    /// It is a version, or rules, that don't run so far. The number is 0.
    Later(u32),
}

impl Cause {
    /// Its name in the log.
    pub fn name(self) -> &'static str
        ensures { result.now ≡ cause_name self }
    {
        match self {
            Cause::Byte(_) => "byte",
            Cause::Unclosed(_) => "unclosed",
            Cause::Literal(_) => "literal",
            Cause::Directive(_) => "directive",
            Cause::Syntax(_) => "syntax",
            Cause::TooDeep(_) => "too_deep",
            Cause::Unknown(_) => "unknown",
            Cause::Twice(_) => "twice",
            Cause::BadType(_) => "bad_type",
            Cause::Incomplete(_) => "incomplete",
            Cause::TooBig(_) => "too_big",
            Cause::Entry(_) => "entry",
            Cause::Note(_) => "note",
            Cause::NoMain(_) => "no_main",
            Cause::Later(_) => "later",
        }
    }

    /// The place of the fault, in bytes.
    pub fn place(self) -> u32
        ensures { result ≡ cause_place self }
    {
        match self {
            Cause::Byte(at) => at,
            Cause::Unclosed(at) => at,
            Cause::Literal(at) => at,
            Cause::Directive(at) => at,
            Cause::Syntax(at) => at,
            Cause::TooDeep(at) => at,
            Cause::Unknown(at) => at,
            Cause::Twice(at) => at,
            Cause::BadType(at) => at,
            Cause::Incomplete(at) => at,
            Cause::TooBig(at) => at,
            Cause::Entry(at) => at,
            Cause::Note(at) => at,
            Cause::NoMain(at) => at,
            Cause::Later(at) => at,
        }
    }
}

/// What a call of `play` answers.
#[derive(Clone, Copy, PartialEq, Eq, Debug)]
pub enum Status {
    /// The run ended by main's return, with this value.
    Main(i32),
    /// The run ended by a trap of that thread.
    Trap { thread: u8, cause: Trap },
    /// The run ended by its budget of turns.
    Budget,
    /// The run ended since nobody may take a turn.
    Stuck,
    /// The words are no order.
    Words,
    /// This could not be read.
    ReadFault(Which),
    /// This is longer than its limit.
    TooLong(Which),
    /// The file of that number is refused.
    Refused { file: u8, cause: Cause },
    /// The output or the journal could not be written whole.
    WriteFault,
    /// Memory ran out before anything was written.
    NoMemory,
}

impl From<End> for Status {
    ghost use Rattle.std.specs.Prelude.{◌≡◌};
    ghost use Rattle.kt_play.specs.Status.{status_of};

    ghost from_gives = { λ how status. status ≡ status_of how };

    fn from(how: End) -> Status {
        match how {
            End::Main(value) => Status::Main(value),
            End::Trap(thread, cause) => Status::Trap { thread, cause },
            End::Budget => Status::Budget,
            End::Stuck => Status::Stuck,
        }
    }
}

impl From<Refusal> for Status {
    ghost use Rattle.std.specs.Prelude.{◌≡◌};
    ghost use Rattle.kt_play.specs.Status.{refusal_answer};

    ghost from_gives = { λ why status. status ≡ refusal_answer why };

    fn from(why: Refusal) -> Status {
        match why {
            Refusal::Words => Status::Words,
            Refusal::Read(which) => Status::ReadFault(which),
            Refusal::Long(which) => Status::TooLong(which),
            Refusal::File(file, cause) => Status::Refused { file, cause },
        }
    }
}

impl From<RunFault> for Status {
    ghost use Rattle.std.specs.Prelude.{◌≡◌};
    ghost use Rattle.kt_play.specs.Status.{fault_answer};

    ghost from_gives = { λ fault status. status ≡ fault_answer fault };

    fn from(fault: RunFault) -> Status {
        match fault {
            RunFault::Write => Status::WriteFault,
            RunFault::NoMemory => Status::NoMemory,
        }
    }
}

/// The exit status of a program that answered so.
pub fn exit_code(status: Status) -> u8
    ensures { result ≡ exit_of status }
{
    match status {
        Status::Main(_) => 0,
        Status::Words => 2,
        Status::ReadFault(_) => 3,
        Status::Refused { .. } => 4,
        Status::WriteFault => 5,
        Status::TooLong(_) => 6,
        Status::NoMemory => 7,
        Status::Trap { .. } => 10,
        Status::Budget => 11,
        Status::Stuck => 12,
    }
}
