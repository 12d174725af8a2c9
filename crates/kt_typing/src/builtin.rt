//! The built-in calls.

/// A built-in call.
#[derive(Clone, Copy, PartialEq, Eq)]
pub enum Builtin {
    Malloc,
    Calloc,
    Free,
    GetChar,
    PutChar,
    Puts,
    Printf,
    Lock,
    Unlock,
    InitMutex,
    Create,
    Join,
    Update,
    IsUpdating,
    IsUpdatingFrom,
    Automigrate,
    MigrateLocal,
}
