ghost use Rattle.std.specs.Prelude.{◌≡◌, ◌≤◌, ◌+◌, length, IfSome};
ghost use Rattle.kt_lex.specs.Gaps.{line_length, comment_length, indent_length, is_include};

use super::bytes::is_indent;

/// How many bytes stand before the end of the line, or of the file.
#[tactic(auto, using(crate::proofs::Rules::prefixes), unfolding(crate::specs::Gaps::line_length))]
pub(crate) fn line_length(bytes: &[u8]) -> usize
    ensures value { result ≡ line_length bytes.now }
    ensures within { result ≤ length bytes.now }
{
    bytes.iter().take_while(|byte| **byte != b'\n').count()
}

/// How many bytes stand before the first `*/`.
#[tactic(auto, unfolding(crate::specs::Gaps::comment_length))]
pub(crate) fn comment_length(bytes: &[u8]) -> Option<usize>
    ensures value { result ≡ comment_length bytes.now }
    ensures within { IfSome result (λ n. n + 2 ≤ length bytes.now) }
{
    for at in 0..bytes.len() {
        if bytes[at..].starts_with(b"*/") {
            return Some(at);
        }
    }
    None
}

/// How many spaces and tabs stand at the front.
#[tactic(auto, using(crate::proofs::Rules::prefixes), unfolding(crate::specs::Gaps::indent_length))]
fn indent_length(bytes: &[u8]) -> usize
    ensures value { result ≡ indent_length bytes.now }
    ensures within { result ≤ length bytes.now }
{
    bytes.iter().take_while(|byte| is_indent(**byte)).count()
}

/// Whether what follows the `#` of a directive is spaces and tabs, and then `include`.
#[tactic(auto, unfolding(crate::specs::Gaps::is_include))]
pub(crate) fn is_include(bytes: &[u8]) -> bool
    ensures { result ≡ is_include bytes.now }
{
    bytes[indent_length(bytes)..].starts_with(b"include")
}
