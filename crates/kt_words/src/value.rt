//! The values of options, and what they say.

ghost use Rattle.std.specs.Prelude.{◌≡◌, ◌<◌, ◌≤◌, IfOk, IfErr, IfSome, IsErrOf, None, Some, length, map};
ghost use Rattle.kt_words.specs.Orders.{each_number, number_between, numbers_of, said, values_of};
ghost use Rattle.kt_words.specs.Reading.{listed, told};

use super::fault::WordFault;
use kt_text::read_number;
use kt_types::Numbers;
use std::alloc::Global;

/// The most requests of an order.
const MOST_REQUESTS: usize = 64;

/// The last turn after which a request can come.
const LAST_TURN: u64 = 10_000_000;

/// An option and its value.
#[derive(Clone, Copy)]
pub struct Value<'a> {
    pub name: &'a str,
    pub text: &'a str,
}

/// The value of an option, where it is given; it is given at most once.
pub fn value_of<'a>(values: &[Value<'a>], name: &str) -> Result<Option<&'a str>, WordFault>
    ensures ok { IfOk result (λ found. values_of name.now (told values.now) ≡ listed found) }
    ensures err { IfErr result (λ fault. fault ≡ WordFault.Words) }
    ensures twice { IfErr result (λ fault. 1 < length (values_of name.now (told values.now))) }
{
    let mut found = None;
    for value in values {
        if value.name == name {
            if found.is_some() {
                return Err(WordFault::Words);
            }
            found = Some(value.text);
        }
    }
    Ok(found)
}

/// The number that the text says, in a range.
pub fn number_between(text: &str, least: u64, most: u64) -> Option<u64>
    ensures value { result ≡ number_between least most text.now }
    ensures within { IfSome result (λ n. n ≤ most) }
{
    let number = read_number(text.as_bytes(), most)?;
    if number < least { None } else { Some(number) }
}

/// The number that an option says, in a range, or the default.
pub fn number_of(
    values: &[Value<'_>],
    name: &str,
    least: u64,
    most: u64,
    default: u64,
) -> Result<u64, WordFault>
    requires { default ≤ most }
    ensures ok { IfOk result (λ n. said default (number_between least most) (values_of name.now (told values.now)) ≡ Some n) }
    ensures within { IfOk result (λ n. n ≤ most) }
    ensures err { IsErrOf result WordFault.Words → said default (number_between least most) (values_of name.now (told values.now)) ≡ None }
{
    match value_of(values, name)? {
        None => Ok(default),
        Some(text) => number_between(text, least, most).ok_or(WordFault::Words),
    }
}

/// The numbers that a list says.
pub fn numbers_of(alloc: Global, text: &str) -> Result<Numbers, WordFault>
    ensures ok { IfOk result (λ numbers. numbers_of text.now ≡ Some numbers) }
    ensures err { IsErrOf result WordFault.Words → numbers_of text.now ≡ None }
{
    let parts: Vec<&str> = text.split(',').collect(alloc)?;
    if parts.len() > MOST_REQUESTS {
        return Err(WordFault::Words);
    }
    each_number(alloc, parts.as_slice())
}

fn each_number(alloc: Global, parts: &[&str]) -> Result<Numbers, WordFault>
    ensures ok { IfOk result (λ numbers. each_number (map (λ part. part.now) parts.now) ≡ Some numbers) }
    ensures err { IsErrOf result WordFault.Words → each_number (map (λ part. part.now) parts.now) ≡ None }
{
    let mut numbers = Vec::new(alloc);
    for part in parts {
        let number = read_number(part.as_bytes(), LAST_TURN).ok_or(WordFault::Words)?;
        numbers.push(number as u32)?;
    }
    Ok(Numbers::from_vec(numbers))
}
