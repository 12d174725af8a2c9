//! The built-in calls by their names.

ghost use Rattle.std.specs.Prelude.{◌≡◌};
ghost use Rattle.kt_names.specs.Builtins.{update_builtin, thread_builtin, builtin_named};

/// A built-in call.
#[derive(Clone, Copy, PartialEq, Eq)]
pub enum Builtin {
    Malloc,
    Calloc,
    Free,
    GetChar,
    PutChar,
    Puts,
    Printf,
    Lock,
    Unlock,
    InitMutex,
    Create,
    Join,
    Update,
    IsUpdating,
    IsUpdatingFrom,
    Automigrate,
    MigrateLocal,
}

/// The built-in call of a name.
#[tactic(auto, unfolding(crate::specs::Builtins::builtin_named))]
pub fn builtin_named(name: &[u8]) -> Option<Builtin>
    ensures { result ≡ builtin_named name.now }
{
    if name == b"malloc".as_slice() {
        return Some(Builtin::Malloc);
    }
    if name == b"calloc".as_slice() {
        return Some(Builtin::Calloc);
    }
    if name == b"free".as_slice() {
        return Some(Builtin::Free);
    }
    if name == b"getchar".as_slice() {
        return Some(Builtin::GetChar);
    }
    if name == b"putchar".as_slice() {
        return Some(Builtin::PutChar);
    }
    if name == b"puts".as_slice() {
        return Some(Builtin::Puts);
    }
    if name == b"printf".as_slice() {
        return Some(Builtin::Printf);
    }
    thread_builtin(name)
}

/// The built-in call of a name that has to do with threads or updates.
#[tactic(auto, unfolding(crate::specs::Builtins::thread_builtin))]
fn thread_builtin(name: &[u8]) -> Option<Builtin>
    ensures { result ≡ thread_builtin name.now }
{
    if name == b"pthread_mutex_lock".as_slice() {
        return Some(Builtin::Lock);
    }
    if name == b"pthread_mutex_unlock".as_slice() {
        return Some(Builtin::Unlock);
    }
    if name == b"pthread_mutex_init".as_slice() {
        return Some(Builtin::InitMutex);
    }
    if name == b"ktthread_create".as_slice() {
        return Some(Builtin::Create);
    }
    if name == b"ktthread_join".as_slice() {
        return Some(Builtin::Join);
    }
    update_builtin(name)
}

/// The built-in call of a name that has to do with updates.
#[tactic(auto, unfolding(crate::specs::Builtins::update_builtin))]
fn update_builtin(name: &[u8]) -> Option<Builtin>
    ensures { result ≡ update_builtin name.now }
{
    if name == b"kitsune_update".as_slice() {
        return Some(Builtin::Update);
    }
    if name == b"kitsune_is_updating".as_slice() {
        return Some(Builtin::IsUpdating);
    }
    if name == b"kitsune_is_updating_from".as_slice() {
        return Some(Builtin::IsUpdatingFrom);
    }
    if name == b"kitsune_do_automigrate".as_slice() {
        return Some(Builtin::Automigrate);
    }
    if name == b"MIGRATE_LOCAL".as_slice() {
        return Some(Builtin::MigrateLocal);
    }
    None
}
