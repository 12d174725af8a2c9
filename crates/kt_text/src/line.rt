ghost use Rattle.std.specs.Prelude.{◌≡◌, ◌++◌, ◌∷◌, [], length, map, take, OnErr, OnOk, vec_len};
ghost use Rattle.kt_text.specs.Lines.{line_of};

use std::alloc::AllocError;

/// Appends the words with a space between each two, and a newline. Without memory `out` is as before.
pub fn push_line(out: &mut Vec<u8>, words: &[&[u8]]) -> Result<(), AllocError>
    ensures ok { OnOk result (out.new.items ≡ out.old.items ++ line_of (map (λ word. word.now) words.now)) }
    ensures err { OnErr result (out.new.items ≡ out.old.items) }
{
    let before = out.len();
    let pushed = push_words(out, words);
    if pushed.is_err() {
        out.truncate(before);
    }
    pushed
}

// Without memory a front of the line is appended.
fn push_words(out: &mut Vec<u8>, words: &[&[u8]]) -> Result<(), AllocError>
    ensures ok { OnOk result (out.new.items ≡ out.old.items ++ line_of (map (λ word. word.now) words.now)) }
    ensures err { OnErr result (take (vec_len out.old) out.new.items ≡ out.old.items) }
{
    if let [first, rest @ ..] = words {
        out.extend_from_slice(first)?;
        for word in rest {
            out.push(b' ')?;
            out.extend_from_slice(word)?;
        }
    }
    out.push(b'\n')?;
    Ok(())
}
