ghost use Rattle.std.specs.Prelude.{◌≡◌, ◌≤◌, ◌++◌, IfSome, OnErr, OnOk};
ghost use Rattle.std.specs.Fmt.{signed_decimal};
ghost use Rattle.kt_text.specs.Numbers.{number_of};

use itoa::Buffer;
use std::alloc::AllocError;

/// Appends the decimal text of the number. Without memory `out` is as before.
pub fn push_number(out: &mut Vec<u8>, n: i64) -> Result<(), AllocError>
    ensures ok { OnOk result (out.new.items ≡ out.old.items ++ signed_decimal n) }
    ensures err { OnErr result (out.new.items ≡ out.old.items) }
{
    out.extend_from_slice(Buffer::new().format(n).as_bytes())
}

/// The number that 1 to 20 decimal digits stand for, leading zeros among them, where it is at most
/// `most`; else none. It takes no memory.
pub fn read_number(bytes: &[u8], most: u64) -> Option<u64>
    ensures number { result ≡ number_of most bytes.now }
    ensures within { IfSome result (λ n. n ≤ most) }
{
    if bytes.is_empty() || bytes.len() > 20 {
        return None;
    }
    let mut value: u64 = 0;
    for byte in bytes {
        let digit = char::from(*byte).to_digit(10)?;
        value = value.checked_mul(10)?.checked_add(digit.into())?;
    }
    if value <= most { Some(value) } else { None }
}
