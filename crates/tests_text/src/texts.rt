use kt_text::{one_text_law, push_line, push_number, read_number, written_law};
use std::test::Fail;

#[test]
fn numbers_are_written(rt: HostRuntime) -> Result<(), Fail> {
    for (number, text) in [
        (0, "0"),
        (7, "7"),
        (-1, "-1"),
        (10_000_000, "10000000"),
        (i64::MAX, "9223372036854775807"),
        (i64::MIN, "-9223372036854775808"),
    ] {
        let mut out = Vec::from_slice(rt.alloc(), b"n ")?;
        push_number(&mut out, number)?;
        assert_eq!(rt; &out.as_slice()[2..], text.as_bytes());
    }
    written_law();
    one_text_law();
    Ok(())
}

#[test]
fn numbers_are_read(rt: HostRuntime) -> Result<(), Fail> {
    for (text, most, number) in [
        ("0", 0, Some(0)),
        ("007", 7, Some(7)),
        ("8", 7, None),
        ("10000000", 10_000_000, Some(10_000_000)),
        ("10000001", 10_000_000, None),
        ("18446744073709551615", u64::MAX, Some(u64::MAX)),
        ("18446744073709551616", u64::MAX, None),
        ("99999999999999999999", u64::MAX, None),
        ("00000000000000000001", 1, Some(1)),
        ("000000000000000000001", 1, None),
        ("", 9, None),
        ("+1", 9, None),
        ("-1", 9, None),
        ("1 ", 9, None),
        ("0x1", 9, None),
        ("1a", 99, None),
    ] {
        assert_eq!(rt; read_number(text.as_bytes(), most), number, "at {text}");
    }
    Ok(())
}

#[test]
fn words_stand_in_a_line(rt: HostRuntime) -> Result<(), Fail> {
    let mut out = Vec::new(rt.alloc());
    push_line(&mut out, &[])?;
    push_line(&mut out, &[b"back"])?;
    push_line(&mut out, &[b"turn", b"0", b"12"])?;
    assert_eq!(rt; out.as_slice(), b"\nback\nturn 0 12\n".as_slice());
    Ok(())
}
