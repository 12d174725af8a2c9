//! How deep a token may stand: what opens a construct, as often as it may, and once more.

use crate::verdict::verdict;
use std::alloc::{AllocError, Global};
use std::test::Fail;

/// What stands first, what opens, what is inside, what closes, behind bars: that many times it may be opened, and the place of the
/// token that is too deep where it is opened once more.
const ROWS: &str = "\
x->y:{|{||}|}|200|206
x->y:{|{|;|}|}|199|206
x->y:{$out=|(|1|)|;}|198|210
x->y:{|(|$out|)|=1;}|199|206
x->y:{|if(1)|;||}|199|1004
x->y:{|if(1);else |;||}|199|2198
x->y:{$out=1|+1|||;}|198|409
x->y:{$out=|!|1||;}|198|210
x->y:{if(|!|1||);}|198|208
x->y:{$out=$in|.f|||;}|199|412
";

fn column(row: &str) -> (&str, &str) {
    row.split_once('|').unwrap_or((row, ""))
}

fn push_times(text: &mut String, part: &str, count: usize) -> Result<(), AllocError> {
    for _ in 0..count {
        text.push_str(part)?;
    }
    Ok(())
}

/// What is told of the row opened so often, and the rest of the row.
fn told(alloc: Global, row: &str, more: usize) -> Result<(String, usize), AllocError> {
    let (first, rest) = column(row);
    let (opening, rest) = column(rest);
    let (inside, rest) = column(rest);
    let (closing, rest) = column(rest);
    let (last, rest) = column(rest);
    let (count, at) = column(rest);
    let count = count.parse::<usize>().unwrap_or(0).saturating_add(more);
    let mut text = String::from_str(alloc, first)?;
    push_times(&mut text, opening, count)?;
    text.push_str(inside)?;
    push_times(&mut text, closing, count)?;
    text.push_str(last)?;
    let verdict = verdict(alloc, text.as_str())?;
    Ok((verdict, at.parse::<usize>().unwrap_or(0)))
}

/// The first row of which something else is told, with that.
fn differing(alloc: Global, table: &str) -> Result<String, AllocError> {
    for row in table.lines() {
        let (within, _) = told(alloc, row, 0)?;
        if !within.is_empty() {
            return format!(in alloc; "{within} within {row}");
        }
        let (beyond, at) = told(alloc, row, 1)?;
        let wanted = format!(in alloc; "too deep at byte {at}")?;
        if beyond.as_str() != wanted.as_str() {
            return format!(in alloc; "{beyond}, and not {row}");
        }
    }
    Ok(String::new(alloc))
}

#[test]
fn constructs_may_be_200_deep(rt: HostRuntime) -> Result<(), Fail> {
    assert_eq!(rt; differing(rt.alloc(), ROWS)?.as_str(), "");
    Ok(())
}

#[test]
fn a_token_that_cannot_come_is_not_too_deep(rt: HostRuntime) -> Result<(), Fail> {
    let mut text = String::from_str(rt.alloc(), "x->y:{")?;
    push_times(&mut text, "{", 200)?;
    text.push_str(")")?;
    assert_eq!(rt;
        verdict(rt.alloc(), text.as_str())?.as_str(),
        "unexpected token at byte 206"
    );
    Ok(())
}
