ghost use Rattle.std.specs.Prelude.{◌≡◌, ◌≤◌, option_and_then, IfSome};
ghost use Rattle.kt_lex.specs.Numbers.{greatest, value_in, at_most_greatest, value_of_digits, number_value, is_hexadecimal};

/// What a number stands for: at most 9,223,372,036,854,775,807, of type `long` or else `int`.
#[derive(Clone, Copy, Debug, PartialEq, Eq)]
pub struct Number {
    pub value: u64,
    pub long: bool,
    /// It is spelled with `0x` or `0X`.
    pub hexadecimal: bool,
}

/// What the spelling of a number stands for, or none where it spells no number.
#[tactic(auto, unfolding(crate::specs::Numbers::number_value, crate::specs::Numbers::has_suffix, crate::specs::Numbers::without_suffix))]
pub fn number_of(spelling: &[u8]) -> Option<Number>
    ensures value { result ≡ number_value spelling.now }
    ensures within { IfSome result (λ n. n.value ≤ greatest) }
{
    let (digits, suffixed) = match spelling {
        [digits @ .., b'L' | b'l'] => (digits, true),
        _ => (spelling, false),
    };
    let value = value_of_digits(digits)?;
    Some(Number {
        value,
        long: suffixed || value > i32::MAX as u64,
        hexadecimal: is_hexadecimal(spelling),
    })
}

#[tactic(auto, unfolding(crate::specs::Numbers::is_hexadecimal))]
fn is_hexadecimal(word: &[u8]) -> bool
    ensures { result ≡ is_hexadecimal word.now }
{
    matches!(word, [b'0', b'x' | b'X', ..])
}

#[tactic(auto, unfolding(crate::specs::Numbers::value_of_digits, crate::specs::Numbers::is_hexadecimal, crate::specs::Numbers::has_leading_zero))]
fn value_of_digits(digits: &[u8]) -> Option<u64>
    ensures value { result ≡ value_of_digits digits.now }
    ensures within { IfSome result (λ n. n ≤ greatest) }
{
    match digits {
        [b'0', b'x' | b'X', hexadecimal @ ..] => value_in(16, hexadecimal),
        [b'0', _, ..] => None,
        _ => value_in(10, digits),
    }
}

#[tactic(auto, unfolding(crate::specs::Numbers::value_in))]
fn value_in(base: u32, digits: &[u8]) -> Option<u64>
    requires low { 2 ≤ base }
    requires high { base ≤ 16 }
    ensures value { result ≡ option_and_then at_most_greatest (value_in base digits.now) }
    ensures within { IfSome result (λ n. n ≤ greatest) }
{
    if digits.is_empty() {
        return None;
    }
    let mut value: u64 = 0;
    for digit in digits {
        let digit = char::from(*digit).to_digit(base)?;
        value = value.checked_mul(base.into())?.checked_add(digit.into())?;
    }
    if value > i64::MAX as u64 {
        None
    } else {
        Some(value)
    }
}
