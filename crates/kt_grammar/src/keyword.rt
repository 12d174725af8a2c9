/// A keyword (ISO/IEC 9899:2011, 6.4.1, those of pthreads and stdio.h, and those of updates).
#[derive(Clone, Copy, PartialEq, Eq)]
pub enum Keyword {
    Char,
    Int,
    Long,
    Void,
    Struct,
    Const,
    Static,
    If,
    Else,
    While,
    Do,
    For,
    Return,
    Break,
    Continue,
    SizeOf,
    Mutex,
    Null,
    Eof,
    MutexInitializer,
    NoteLocals,
    PointerArray,
    Init,
}

/// A word of rule files that begins with a dollar sign.
#[derive(Clone, Copy, PartialEq, Eq)]
pub enum RuleWord {
    In,
    Out,
    Base,
    OldSymbol,
    Transform,
    New,
}
