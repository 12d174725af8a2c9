ghost use Rattle.std.specs.Prelude.{◌≡◌};
ghost use Rattle.kt_lex.specs.Bytes.{is_indent, is_blank, is_word_byte};

/// A space or a tab.
pub(crate) fn is_indent(byte: u8) -> bool
    ensures { result ≡ is_indent byte }
{
    byte == b' ' || byte == b'\t'
}

/// A space, tab, carriage return or newline.
pub(crate) fn is_blank(byte: u8) -> bool
    ensures { result ≡ is_blank byte }
{
    is_indent(byte) || byte == b'\r' || byte == b'\n'
}

/// A letter, a digit or an underscore.
pub(crate) fn is_word_byte(byte: u8) -> bool
    ensures { result ≡ is_word_byte byte }
{
    byte.is_ascii_alphanumeric() || byte == b'_'
}
