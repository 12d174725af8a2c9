//! Arguments taken out of their list.

ghost use Rattle.std.specs.Prelude.{◌≡◌, slice_get, drop};

use crate::argument::Argument;
use sqlite_items::Items;

/// The first argument; the others are let go.
pub(crate) fn first_argument(mut arguments: Items<Argument>) -> Option<Argument>
    ensures { result ≡ slice_get arguments 0 }
{
    if arguments.len() < 1 {
        return None;
    }
    Some(arguments.remove(0))
}

/// The second argument; the others are let go.
pub(crate) fn second_argument(mut arguments: Items<Argument>) -> Option<Argument>
    ensures { result ≡ slice_get arguments 1 }
{
    if arguments.len() < 2 {
        return None;
    }
    Some(arguments.remove(1))
}

/// The arguments behind the first, which is let go.
pub(crate) fn behind_first(mut arguments: Items<Argument>) -> Items<Argument>
    ensures { result ≡ drop 1 arguments }
{
    if arguments.len() < 1 {
        return arguments;
    }
    let first = arguments.remove(0);
    first.let_go();
    arguments
}
