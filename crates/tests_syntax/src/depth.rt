//! Files as deep as they may be, and deeper by one. The body of the function begins at byte 9, where one construct is open.
//!
//! A row has what stands first in a function's body, what is then written over and over, what stands in the middle, what
//! closes each, what stands last; how often it may be written, and where it is too deep if it is written once more; with `$`
//! between them.

use crate::verdict::verdict;
use std::alloc::{AllocError, Global};
use std::test::Fail;

/// Statements. A block that is a part of a statement is deeper by two.
const STATEMENTS: &str = "\
${$$}$$200$209
$if(a)$;$$$199$1007
$if(a);else $;$$$199$2201
$while(a)$;$$$199$1607
$for(;;)$;$$$199$1409
$do $;$while(a);$$199$609
$while(a){$;$}$$99$909
";

/// Operands. The initial value of a local is no deeper than an expression.
const OPERANDS: &str = "\
$($a$)$;$199$209
$a[$a$]$;$199$409
$f($a$)$;$199$409
$f(a,$a$)$;$199$807
$f($$)$;$200$409
$!$a$$;$199$209
$- $a$$;$199$409
$*$a$$;$199$209
$& $a$$;$199$409
$++$a$$;$199$409
$--$a$$;$199$409
$(int)$a$$;$199$1009
$a=$a$$;$199$409
$a?b:$c$$;$199$807
$a?$b$:c$;$199$409
$a+=$a$$;$199$609
$a-=$a$$;$199$609
$a*=$a$$;$199$609
$a/=$a$$;$199$609
$a%=$a$$;$199$609
int x=$($a$)$;$199$215
";

/// Chains of operators.
const CHAINS: &str = "\
a$||a$$$;$199$609
a$&&a$$$;$199$609
a$==a$$$;$199$609
a$<a$$$;$199$409
a$+a$$$;$199$409
a$*a$$$;$199$409
a$.b$$$;$200$410
a$->b$$$;$200$610
a$++$$$;$200$410
a$[b]$$$;$199$608
a$!=a$$$;$199$609
a$>a$$$;$199$409
a$<=a$$$;$199$609
a$>=a$$$;$199$609
a$-a$$$;$199$409
a$/a$$$;$199$409
a$%a$$$;$199$409
a$--$$$;$200$410
";

/// What is written so often, how often, then a token that can't come there and would be too deep, and its place.
const TIES: &str = "\
{$200$else$209
{$200$)$209
if(a)$199$if()$1007
while(a)$199$while(}$1607
for(;;)$200$int$1409
do $200$}$609
($200$;$209
a[$200$]$409
f($200$,$409
!$200$;$209
(int)$200$)$1009
a=$200$;$409
";

/// What stands up to a `$` in a row, and what behind it.
fn column(row: &str) -> (&str, &str) {
    row.split_once('$').unwrap_or((row, ""))
}

fn push_times(text: &mut String, part: &str, count: usize) -> Result<(), AllocError> {
    for _ in 0..count {
        text.push_str(part)?;
    }
    Ok(())
}

/// A row's parts.
#[derive(Clone, Copy)]
struct Nest<'a> {
    before: &'a str,
    open: &'a str,
    middle: &'a str,
    close: &'a str,
    after: &'a str,
    most: usize,
    at: &'a str,
}

fn nest_of(row: &str) -> Nest<'_> {
    let (before, row) = column(row);
    let (open, row) = column(row);
    let (middle, row) = column(row);
    let (close, row) = column(row);
    let (after, row) = column(row);
    let (most, at) = column(row);
    Nest {
        before,
        open,
        middle,
        close,
        after,
        most: most.parse::<usize>().unwrap_or(0),
        at,
    }
}

/// What is told of the file where the part is written so often.
fn told(alloc: Global, nest: Nest<'_>, count: usize) -> Result<String, AllocError> {
    let mut text = String::from_str(alloc, "int f() {")?;
    text.push_str(nest.before)?;
    push_times(&mut text, nest.open, count)?;
    text.push_str(nest.middle)?;
    push_times(&mut text, nest.close, count)?;
    text.push_str(nest.after)?;
    text.push('}')?;
    verdict(alloc, text.as_str())
}

/// The first row of a table whose part may not be written so often, or once more, with what is told then.
fn differing(alloc: Global, table: &str) -> Result<String, AllocError> {
    for row in table.lines() {
        let nest = nest_of(row);
        let at = nest.at;
        let wanted = format!(in alloc; "too deep at byte {at}")?;
        let deep = told(alloc, nest, nest.most)?;
        let deeper = told(alloc, nest, nest.most.saturating_add(1))?;
        if !deep.is_empty() || deeper.as_str() != wanted.as_str() {
            return format!(in alloc; "{deep}, {deeper}, and not {row}");
        }
    }
    Ok(String::new(alloc))
}

#[test]
fn constructs_may_be_200_deep(rt: HostRuntime) -> Result<(), Fail> {
    for table in [STATEMENTS, OPERANDS, CHAINS] {
        assert_eq!(rt; differing(rt.alloc(), table)?.as_str(), "");
    }
    Ok(())
}

fn broken(alloc: Global, open: &str, count: usize, last: &str) -> Result<String, AllocError> {
    let mut text = String::from_str(alloc, "int f() {")?;
    push_times(&mut text, open, count)?;
    text.push_str(last)?;
    verdict(alloc, text.as_str())
}

/// The first tie of which something else is told, with that.
fn untied(alloc: Global, table: &str) -> Result<String, AllocError> {
    for row in table.lines() {
        let (open, rest) = column(row);
        let (count, rest) = column(rest);
        let (last, at) = column(rest);
        let wanted = format!(in alloc; "unexpected token at byte {at}")?;
        let found = broken(alloc, open, count.parse::<usize>().unwrap_or(0), last)?;
        if found.as_str() != wanted.as_str() {
            return format!(in alloc; "{found}, and not {row}");
        }
    }
    Ok(String::new(alloc))
}

#[test]
fn a_token_that_cannot_come_is_not_too_deep(rt: HostRuntime) -> Result<(), Fail> {
    assert_eq!(rt; untied(rt.alloc(), TIES)?.as_str(), "");
    Ok(())
}
