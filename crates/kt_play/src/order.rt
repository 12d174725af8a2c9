//! The words of a call.

ghost use Rattle.std.specs.Prelude.{◌≡◌, MatchOption, Some, None};
ghost use Rattle.kt_play.specs.Names.{names_in};
ghost use Rattle.kt_play.specs.Order.{file_name, order_of, texts};

/// The files that words name, in their order.
#[derive(Clone, Copy)]
pub enum Names<'a> {
    /// A version.
    One(&'a str),
    /// A version, the rules of its update, and the next version.
    Three(&'a str, &'a str, &'a str),
}

/// The files that the words name: one or three words that aren't empty and don't begin with `-`.
pub fn names_of(words: &[String]) -> Option<Names<'_>>
    ensures { MatchOption result (order_of (texts words.now) ≡ None) (λ names. order_of (texts words.now) ≡ Some (names_in names)) }
{
    match words {
        [version] => Some(Names::One(name_in(version.as_str())?)),
        [first, rules, second] => Some(Names::Three(
            name_in(first.as_str())?,
            name_in(rules.as_str())?,
            name_in(second.as_str())?,
        )),
        _ => None,
    }
}

fn name_in(word: &str) -> Option<&str>
    ensures { MatchOption result (file_name word.now ≡ None) (λ name. file_name word.now ≡ Some name.now) }
{
    match word.as_bytes() {
        [] | [b'-', ..] => None,
        _ => Some(word),
    }
}
