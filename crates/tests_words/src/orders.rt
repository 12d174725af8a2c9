use super::helpers::{read, words};
use kt_words::{Names, Order, Program, Wish, WordFault, one_order_law, read_words};
use std::alloc::{AllocError, Global};
use std::test::Fail;

/// Words of `kitplay`, and their order.
const ORDERS: &str = "\
first.c => after, budget 1000000, workers 4, quantum 50, files first.c
a.c empty.kx b.c => after 0, budget 1000000, workers 4, quantum 50, files a.c empty.kx b.c
a.c empty.kx b.c --after 9999 => after 9999, budget 1000000, workers 4, quantum 50, files a.c empty.kx b.c
--after=0,0 a.c empty.kx b.c => after 0 0, budget 1000000, workers 4, quantum 50, files a.c empty.kx b.c
a.c --quantum 1 e.kx b.c => after 0, budget 1000000, workers 4, quantum 1, files a.c e.kx b.c
a.c --budget 1000 => after, budget 1000, workers 4, quantum 50, files a.c
a.c --turns journal => after, budget 1000000, workers 4, turns journal, files a.c
--turns=journal a.c => after, budget 1000000, workers 4, turns journal, files a.c
--job 2000 --after 20000 => after 20000, budget 1000000, workers 4, quantum 50, job 2000, files
--job 1 --mix 18446744073709551615 => after 0, budget 1000000, workers 4, mix 18446744073709551615, job 1, files
a.c e.kx b.c e.kx c.c => after 0 0, budget 1000000, workers 4, quantum 50, files a.c e.kx b.c e.kx c.c
a.c -- --mix -- => after 0, budget 1000000, workers 4, quantum 50, files a.c --mix --
a.c --turns=-x -- => after, budget 1000000, workers 4, turns -x, files a.c
";

/// Words of `kitplay` that are no order.
const REFUSED: &str = "\
a.c e.kx

a.c -x
a.c -
a.c -- -
a.c --turns
a.c --turns -x
a.c --turns --
a.c --turns=
a.c --budget 1 --budget 1
a.c --budget 0
a.c --budget 10000001
a.c --quantum 1 --mix 1
a.c --turns t --mix=1
a.c --quantum 0
a.c --mix 18446744073709551616
a.c --after 1,,2
a.c --after 1,
a.c --after 10000001
a.c --job 1
--job 20001
a.c --workers 2
a.c --budget=+1
";

const NO_ORDER: &str = "the words are not of the form";

fn push_names(text: &mut String, names: &[String]) -> Result<(), AllocError> {
    for name in names {
        text.push(' ')?;
        text.push_str(name.as_str())?;
    }
    Ok(())
}

fn push_numbers(text: &mut String, numbers: &[u32]) -> Result<(), AllocError> {
    for number in numbers {
        write!(text, " {number}")?;
    }
    Ok(())
}

fn push_bytes(text: &mut String, bytes: &[u8]) -> Result<(), AllocError> {
    for byte in bytes {
        text.push(char::from(*byte))?;
    }
    Ok(())
}

fn push_wish(text: &mut String, wish: &Wish) -> Result<(), AllocError> {
    match wish {
        Wish::Quantum(turns) => write!(text, "quantum {turns}"),
        Wish::Mix(first) => write!(text, "mix {first}"),
        Wish::Turns(name) => {
            text.push_str("turns ")?;
            push_bytes(text, name.as_bytes())
        }
    }
}

fn push_order(text: &mut String, order: &Order) -> Result<(), AllocError> {
    text.push_str("after")?;
    push_numbers(text, order.after.as_slice())?;
    let (budget, workers) = (order.budget, order.workers);
    write!(text, ", budget {budget}, workers {workers}, ")?;
    push_wish(text, &order.schedule)?;
    if let Some(job) = order.job {
        write!(text, ", job {job}")?;
    }
    text.push_str(", files")?;
    push_names(text, order.files.as_slice())
}

/// What is told of an answer.
fn told(alloc: Global, answer: Result<Order, WordFault>) -> Result<String, AllocError> {
    match answer {
        Ok(order) => {
            let mut text = String::new(alloc);
            let pushed = push_order(&mut text, &order);
            drop(order);
            pushed.map(|_| text)
        }
        Err(fault) => format!(in alloc; "{fault}"),
    }
}

/// The first row of which something else is told, with that.
fn differing(alloc: Global, table: &str) -> Result<String, AllocError> {
    for row in table.lines() {
        let (line, wanted) = row.split_once(" => ").unwrap_or((row, NO_ORDER));
        let found = told(alloc, read(alloc, Program::Play, line))?;
        if found.as_str() != wanted {
            return format!(in alloc; "{found}, and not {row}");
        }
    }
    Ok(String::new(alloc))
}

#[test]
fn words_have_their_orders(rt: HostRuntime) -> Result<(), Fail> {
    for table in [ORDERS, REFUSED] {
        assert_eq!(rt; differing(rt.alloc(), table)?.as_str(), "");
    }
    one_order_law();
    Ok(())
}

#[test]
fn words_of_the_other_program(rt: HostRuntime) -> Result<(), Fail> {
    let alloc = rt.alloc();
    let found = told(alloc, read(alloc, Program::Serve, "a.c --quantum 1"))?;
    assert_eq!(rt; found.as_str(), NO_ORDER);
    let found = told(
        alloc,
        read(alloc, Program::Serve, "--workers 2 a.c e.kx b.c"),
    )?;
    assert!(rt; found.contains("workers 2,") && found.ends_with(", files a.c e.kx b.c"));
    Ok(())
}

#[test]
fn empty_words_are_no_order(rt: HostRuntime) -> Result<(), Fail> {
    let alloc = rt.alloc();
    let mut empty = words(alloc, "a.c")?;
    empty.push(String::new(alloc))?;
    empty.push(String::new(alloc))?;
    let found = told(alloc, read_words(alloc, Program::Play, empty.as_slice()))?;
    assert_eq!(rt; found.as_str(), NO_ORDER);
    Ok(())
}

#[test]
fn names_are_kept(rt: HostRuntime) -> Result<(), Fail> {
    let names = Names::from_vec(words(rt.alloc(), "a b")?);
    let mut text = String::new(rt.alloc());
    push_names(&mut text, names.as_slice())?;
    assert_eq!(rt; text.as_str(), " a b");
    assert!(rt; names.into_vec().len() == 2);
    Ok(())
}
