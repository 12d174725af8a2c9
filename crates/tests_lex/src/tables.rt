//! Texts with their tokens or their fault. In a row the answer stands before a backtick, and a newline of the text is written `~`.

use kt_lex::{Kind, LexFault, Token, character_of, lex, number_of, string_of};
use std::alloc::{AllocError, Global};
use std::test::Fail;

fn letter(kind: Kind) -> char {
    match kind {
        Kind::Identifier => 'i',
        Kind::Keyword => 'k',
        Kind::Number => 'n',
        Kind::Character => 'c',
        Kind::Text => 't',
        Kind::RuleWord => 'r',
        Kind::Sign => 's',
    }
}

/// The tokens as words `KIND AT-END` with a space behind each, or the fault.
fn shown(alloc: Global, bytes: &[u8]) -> Result<String, AllocError> {
    if bytes.len() > 1000 {
        return String::from_str(alloc, "too long");
    }
    match lex(alloc, bytes) {
        Ok(tokens) => words(alloc, &tokens),
        Err(fault) => fault_word(alloc, fault),
    }
}

fn words(alloc: Global, tokens: &[Token]) -> Result<String, AllocError> {
    let mut text = String::new(alloc);
    for token in tokens {
        let kind = letter(token.kind);
        let at = token.at;
        let end = token.end;
        write!(text, "{kind}{at}-{end} ")?;
    }
    Ok(text)
}

fn fault_word(alloc: Global, fault: LexFault) -> Result<String, AllocError> {
    match fault {
        LexFault::Unclosed { at } => format!(in alloc; "unclosed {at}"),
        LexFault::Literal { at } => format!(in alloc; "literal {at}"),
        LexFault::Directive { at } => format!(in alloc; "directive {at}"),
        LexFault::Byte { at } => format!(in alloc; "byte {at}"),
        LexFault::NoMemory => String::from_str(alloc, "no memory"),
    }
}

/// Every kind.
const KINDS: &str = "\
`
i0-1 i2-5 i6-9 `a _b9 Int
k0-3 k4-19 i20-24 `int pthread_mutex_t ints
k0-4 k5-8 k9-13 k14-24 `NULL EOF INIT E_PTRARRAY
n0-1 n2-3 n4-14 n15-18 n19-21 `0 7 2147483647 10L 0l
c0-3 c4-7 c8-11 `'a' '\"' ' '
r0-3 r4-8 r9-14 r15-22 r23-29 r30-34 `$in $out $base $oldsym $xform $new
s0-1 s1-2 s2-3 s3-4 s4-5 s5-6 s6-7 s7-8 s8-9 `{}()[];,.
s0-1 s2-3 s4-5 s6-7 s8-9 s10-11 s12-13 s14-15 s16-17 s18-19 s20-21 s22-23 `? : = < > + - * / % ! &
s0-2 s3-5 s6-8 s9-11 s12-14 s15-17 s18-20 s21-23 `-> :: == != <= >= ++ --
s0-2 s3-5 s6-8 s9-11 s12-14 s15-17 s18-20 `+= -= *= /= %= && ||
";

/// Every escape.
const ESCAPES: &str = "\
c0-4 c5-9 c10-14 c15-19 `'\\n' '\\t' '\\r' '\\0'
c0-4 c5-9 c10-14 `'\\\\' '\\'' '\\\"'
t0-16 `\"\\n\\t\\r\\0\\\\\\'\\\"\"
t0-4 t5-9 `\"\\\"\" \"\\\\\"
";

/// Neighbours.
const NEIGHBOURS: &str = "\
i0-1 s1-3 s3-4 i4-5 `a+++b
i0-1 s1-3 s3-4 i4-5 `a---b
i0-1 s1-3 i3-4 `x->y
i0-1 s1-3 s3-5 i5-6 `x--->y
i0-1 s1-3 s3-4 i4-5 `a:::b
i0-1 s1-3 s3-4 i4-5 `a>==b
i0-1 s1-2 s2-4 i4-5 `a<<=b
i0-1 s1-3 s3-4 i4-5 `a&&&b
i0-1 s1-3 s3-4 i4-5 `a!==b
i0-1 s1-2 i2-3 `a/b
i0-1 s1-2 s3-4 i4-5 `a/ /b
n0-1 s1-2 n2-3 `1.5
n0-1 s1-2 n2-3 `1-1
";

/// Numbers.
const NUMBERS: &str = "\
n0-4 n5-9 n10-13 `0x1L 0XfF 0x0
n0-19 n20-38 `9223372036854775807 0x7fffffffffffffff
n0-19 `0x00000000000000001
literal 0`9223372036854775808
literal 1` 0x8000000000000000
literal 0`99999999999999999999999
literal 0`08
literal 0`00
literal 0`0x
literal 0`0xL
literal 0`0xg
literal 0`1LL
literal 0`1u
literal 2`a 1e5
";

/// Comments.
const COMMENTS: &str = "\
i0-1 i5-6 `a/**/b
i5-6 i11-12 `/***/a/*~*/b
i0-1 i14-15 `a//b */ \" ' $~c
i0-1 `a//
unclosed 2`a /*/
i8-9 `/* // */a
";

/// Quotes.
const QUOTES: &str = "\
unclosed 2`a 'b~'
unclosed 1` \"a\\\"
unclosed 0`\"\\q
literal 1` \"\\q\"
literal 0`''
literal 0`'ab'
literal 0`'\\x'
literal 0`\"\r\"
";

/// Directives.
const DIRECTIVES: &str = "\
i23-24 `#include <stdio.h> ' $~a
`\t # \tinclude~#includefoo
directive 3`a~ #define b
byte 2`a #include
byte 4`/**/#include
";

/// Other bytes.
const OTHERS: &str = "\
byte 2`a @
byte 0`$inn $in
byte 0`$
byte 0`$$in
byte 1`a|b
byte 1`a\\
byte 1`\r#include
byte 0`@ \"
";

/// The text of a row.
fn text_of(alloc: Global, text: &str) -> Result<Vec<u8>, AllocError> {
    let mut bytes = Vec::new(alloc);
    for byte in text.as_bytes() {
        bytes.push(if *byte == b'~' { b'\n' } else { *byte })?;
    }
    Ok(bytes)
}

/// The first row of a table that is read otherwise, with what is told of it.
fn differing(alloc: Global, table: &str) -> Result<String, AllocError> {
    for row in table.lines() {
        let (wanted, text) = row.split_once('`').unwrap_or((row, ""));
        let bytes = text_of(alloc, text)?;
        let found = shown(alloc, bytes.as_slice())?;
        if found.as_str() != wanted {
            return format!(in alloc; "{found}, and not {row}");
        }
    }
    Ok(String::new(alloc))
}

#[test]
fn token_lists(rt: HostRuntime) -> Result<(), Fail> {
    for table in [
        KINDS, ESCAPES, NEIGHBOURS, NUMBERS, COMMENTS, QUOTES, DIRECTIVES, OTHERS,
    ] {
        assert_eq!(rt; differing(rt.alloc(), table)?.as_str(), "");
    }
    // Bytes that no text has.
    let found = shown(rt.alloc(), b"\"\" \"a\tb'\" \"\x80\xff\"")?;
    assert_eq!(rt; found.as_str(), "t0-2 t3-9 t10-14 ");
    assert_eq!(rt; shown(rt.alloc(), b"\x80")?.as_str(), "byte 0");
    Ok(())
}

/// The lines of the tokens, with a space behind each.
fn lines_of(alloc: Global, bytes: &[u8]) -> Result<String, Fail> {
    if bytes.len() > 1000 {
        return Err(Fail::from("too long"));
    }
    let tokens = lex(alloc, bytes)?;
    let mut text = String::new(alloc);
    for token in &tokens {
        let line = token.line;
        write!(text, "{line} ")?;
    }
    Ok(text)
}

#[test]
fn lines(rt: HostRuntime) -> Result<(), Fail> {
    let found = lines_of(rt.alloc(), b"a /* \n \n */ b\n#include c\n// d\ne \"\"")?;
    assert_eq!(rt; found.as_str(), "1 3 6 6 ");
    Ok(())
}

/// Spellings behind their values: of a number, with `L` where it is a `long`; of a character constant, in quotes.
const VALUES: &str = "\
0`0
2147483647`2147483647
2147483648L`2147483648
7L`7L
0L`0l
31`0x1F
11259375`0Xabcdef
4294967295L`0xffffffffL
9223372036854775807L`9223372036854775807
'97'`'a'
'10'`'\\n'
'9'`'\\t'
'13'`'\\r'
'0'`'\\0'
'39'`'\\''
none`x1
none`'
";

fn value(alloc: Global, spelling: &[u8]) -> Result<String, AllocError> {
    match (number_of(spelling), character_of(spelling)) {
        (Some(number), None) => {
            let value = number.value;
            let behind = if number.long { "L" } else { "" };
            format!(in alloc; "{value}{behind}")
        }
        (None, Some(byte)) => format!(in alloc; "'{byte}'"),
        (None, None) => String::from_str(alloc, "none"),
        (Some(_), Some(_)) => String::from_str(alloc, "both"),
    }
}

/// The first spelling that has another value, with that.
fn differing_value(alloc: Global, table: &str) -> Result<String, AllocError> {
    for row in table.lines() {
        let (wanted, spelling) = row.split_once('`').unwrap_or((row, ""));
        let found = value(alloc, spelling.as_bytes())?;
        if found.as_str() != wanted {
            return format!(in alloc; "{found}, and not {row}");
        }
    }
    Ok(String::new(alloc))
}

#[test]
fn values(rt: HostRuntime) -> Result<(), Fail> {
    assert_eq!(rt; differing_value(rt.alloc(), VALUES)?.as_str(), "");
    let text = string_of(rt.alloc(), b"\"a\\0\\\\\\\"\xff\"")?.ok_or("no string")?;
    let same = text.as_slice() == [97, 0, 92, 34, 255].as_slice();
    assert!(rt; same);
    assert!(rt; string_of(rt.alloc(), b"\"")?.is_none());
    Ok(())
}
