//! Room in a vector of values.
ghost use Rattle.std.specs.Prelude.{◌≡◌, ◌<◌, OnOk, vec_capacity, vec_len};

use kt_mem::Stored;
use std::alloc::AllocError;

/// Room for one value more.
#[inline]
pub(crate) fn have_room(items: &mut Vec<Stored>) -> Result<(), AllocError>
    ensures items { items.new.items ≡ items.old.items }
    ensures room { OnOk result (vec_len items.new < vec_capacity items.new) }
{
    if items.len() < items.capacity() {
        return Ok(());
    }
    make_room(items)
}

/// Takes memory for one value more. It is done seldom, and stands apart so that what is done each time stays short.
#[inline(never)]
fn make_room(items: &mut Vec<Stored>) -> Result<(), AllocError>
    ensures items { items.new.items ≡ items.old.items }
    ensures room { OnOk result (vec_len items.new < vec_capacity items.new) }
{
    items.reserve(1)
}
