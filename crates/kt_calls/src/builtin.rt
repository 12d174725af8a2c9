//! The built-in calls by their names.

ghost use Rattle.std.specs.Prelude.{◌≡◌, drop};
ghost use Rattle.kt_typing.specs.Calls.{named_builtins, among, builtin_named};

use kt_typing::Builtin;

// The built-in call of a name that has to do with updates.
fn update_builtin(name: &[u8]) -> Option<Builtin>
    ensures { result ≡ among (drop 12 named_builtins) name.now }
{
    if b"kitsune_update".as_slice() == name {
        return Some(Builtin::Update);
    }
    if b"kitsune_is_updating".as_slice() == name {
        return Some(Builtin::IsUpdating);
    }
    if b"kitsune_is_updating_from".as_slice() == name {
        return Some(Builtin::IsUpdatingFrom);
    }
    if b"kitsune_do_automigrate".as_slice() == name {
        return Some(Builtin::Automigrate);
    }
    if b"MIGRATE_LOCAL".as_slice() == name {
        return Some(Builtin::MigrateLocal);
    }
    None
}

// The built-in call of a name that has to do with threads or updates.
fn thread_builtin(name: &[u8]) -> Option<Builtin>
    ensures { result ≡ among (drop 7 named_builtins) name.now }
{
    if b"pthread_mutex_lock".as_slice() == name {
        return Some(Builtin::Lock);
    }
    if b"pthread_mutex_unlock".as_slice() == name {
        return Some(Builtin::Unlock);
    }
    if b"pthread_mutex_init".as_slice() == name {
        return Some(Builtin::InitMutex);
    }
    if b"ktthread_create".as_slice() == name {
        return Some(Builtin::Create);
    }
    if b"ktthread_join".as_slice() == name {
        return Some(Builtin::Join);
    }
    update_builtin(name)
}

/// The built-in call of a name.
pub fn builtin_named(name: &[u8]) -> Option<Builtin>
    ensures { result ≡ builtin_named name.now }
{
    if b"malloc".as_slice() == name {
        return Some(Builtin::Malloc);
    }
    if b"calloc".as_slice() == name {
        return Some(Builtin::Calloc);
    }
    if b"free".as_slice() == name {
        return Some(Builtin::Free);
    }
    if b"getchar".as_slice() == name {
        return Some(Builtin::GetChar);
    }
    if b"putchar".as_slice() == name {
        return Some(Builtin::PutChar);
    }
    if b"puts".as_slice() == name {
        return Some(Builtin::Puts);
    }
    if b"printf".as_slice() == name {
        return Some(Builtin::Printf);
    }
    thread_builtin(name)
}
