//! How many elements and cells declarations have.

ghost use Rattle.std.specs.Prelude.{◌≡◌, ◌*◌, ◌+◌, ◌&&◌, nat_le, true};
ghost use Rattle.kt_check.specs.Files.{is_array_count, count_of};

use kt_lex::Number;

/// An array has 1 to 65,536 elements.
pub(crate) fn is_array_count(count: &Option<Number>) -> bool
    ensures { result ≡ is_array_count count.now }
{
    match count {
        None => true,
        Some(n) => 1 <= n.value && n.value <= 65_536,
    }
}

/// How many elements there are: one, where there are no brackets.
pub(crate) fn count_of(count: &Option<Number>) -> u64
    ensures { result ≡ count_of count.now }
{
    match count {
        None => 1,
        Some(n) => n.value,
    }
}

/// How many elements there are, where an array may have so many.
pub(crate) fn elements(count: &Option<Number>) -> u32
    ensures { is_array_count count.now ≡ true → result ≡ count_of count.now }
{
    let count = count_of(count);
    if count <= 65_536 { count as u32 } else { 1 }
}

/// Whether a global of so many elements of these cells may be, behind globals of so many cells.
pub(crate) fn global_fits(count: &Option<Number>, cells: u32, before: u32) -> bool
    ensures { result ≡ (is_array_count count.now && nat_le (count_of count.now * cells) 65536 && nat_le (before + count_of count.now * cells) 1048576) }
{
    if !is_array_count(count) {
        return false;
    }
    match count_of(count).checked_mul(cells as u64) {
        Some(size) => size <= 65_536 && before as u64 + size <= 1_048_576,
        None => false,
    }
}

/// Whether a field of so many elements of these cells may be, behind fields of so many cells.
pub(crate) fn field_fits(count: &Option<Number>, cells: u32, before: u32) -> bool
    ensures { result ≡ (is_array_count count.now && nat_le (before + count_of count.now * cells) 65536) }
{
    if !is_array_count(count) {
        return false;
    }
    match count_of(count).checked_mul(cells as u64) {
        Some(size) => size <= 65_536 && before as u64 + size <= 65_536,
        None => false,
    }
}
