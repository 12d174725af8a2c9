//! Rule files that are none. A backtick, which is not of the file, stands before the token where that is told.

use crate::verdict::verdict;
use std::alloc::{AllocError, Global};
use std::test::Fail;

/// Rules, and what ends them.
const RULES: &str = "\
x`
x -> `;
x -> y `z;
x :: y `;
x :: y -> z :: `;
struct `;
struct s -> `x;
struct s -> struct t`.f;
struct s.f -> struct t`;
struct s. `struct
struct s -> struct t `: { }
INIT `;
INIT x :`;
INIT x : { }`;
INIT struct s`;
INIT x: { if `$in ; }
INIT x: { if ($in) `}
INIT x: { if ($in) ; else `}
INIT x: { `else ; }
INIT x: { $out`; }
INIT x: { $out = `; }
INIT x: { $out = 1`
INIT x: { {`
INIT x: { $new(`1, 1) = 1; }
INIT x: { $out = $new(int,`); }
INIT x: { $out = $new(int, 1`, 2); }
INIT x: { $out = $new`; }
INIT x: { $out = $xform(`); }
INIT x: { $out = $oldsym(`1); }
INIT x: { $out = `INIT; }
INIT x: { $out = a`++; }
INIT x: { `while (1) ; }
INIT x: { `int a; }
";

/// Faults that another reader of rule files finds, at the same places.
const OTHERS: &str = "\
`=
`$in
g::`
INIT`
g -> g`
struct S`
INIT f`::q;
g -> g: `$out = 1;
g -> g: {`return;}
g -> g: {$out = 1`}
g -> g: {$out `+= 1;}
g -> g: {$out = `&g;}
g -> g: {$out = `\"a\";}
g -> g: {$out = h`(1);}
g -> g: {$out = $in `= 1;}
g -> g: {$out = $new(int `1);}
g -> g: {$out = `sizeof(int);}
g -> g: {$out = $oldsym(st`.v);}
g -> g: {if (1) $out=1; else `else}
ps -> ps: {$out = $new(struct S, `-1);}
struct S0.n3 -> struct S0n3`: { $out = $in % 1000; } 
/* rules */ g5 -> g5: { $out = $xform($oldsym(pS0)); } INIT g8: { $out = 28 + `; } INIT g6; struct S0.v -> struct S0.v: { $out = $in + 5; } 
struct S0.next `:: -> struct T11.next: { $out = $new(struct T11, 1); } struct S0 -> struct T11; INIT g10; INIT struct T11.f12: { $out = $base.v < $oldsym(g9); } 
INIT struct T12.f17: { $out  `$oldsym(g8); if ($oldsym(g5)) ; else $out = 3; } INIT struct T12.f16: { $out = $new(char, 1); } struct S1 -> struct T12; struct S0.f1 -> struct S0.r13; 
/* rules */ INIT struct S2.f17: { $out = ($base.f8 ? $base.f8->v : 7); } g13 -> g13: { $out = $xform($oldsym(g13)); } struct S2.v -> struct S2.v: { $out = $in - 1; } struct S1. `-> struct S1.r16; 
struct S0.f2 -> struct S0.f2: { $out = $base.f2; } INIT g5; INIT struct S0.f11; INIT struct S1.f12: { $out = $new(int, 1); `] INIT struct S2.f14: { $out = 13; if ($oldsym(g6)) ; else $out = 3; } INIT g4; 
/* rules */ struct S0.f2 -> struct S0.f2: { $out = $in % 100; if ($oldsym(round)) ; else $out = 3; } g7 -> q8; rec::n -> rec::q: { $out = $in * 100; } w0::i -> `else w0::i: { $out = $in + 0; } g5 -> g5: { $out = $oldsym(round) ? NULL : $new(struct S0, 1); } 
";

/// The first row of a table of which something else is told, with that.
fn differing(alloc: Global, table: &str) -> Result<String, AllocError> {
    for row in table.lines() {
        let (before, behind) = row.split_once('`').unwrap_or((row, ""));
        let at = before.len();
        let wanted = format!(in alloc; "unexpected token at byte {at}")?;
        let text = format!(in alloc; "{before}{behind}")?;
        let found = verdict(alloc, text.as_str())?;
        if found.as_str() != wanted.as_str() {
            return format!(in alloc; "{found}, and not {row}");
        }
    }
    Ok(String::new(alloc))
}

#[test]
fn faults_are_told_at_their_place(rt: HostRuntime) -> Result<(), Fail> {
    for table in [RULES, OTHERS] {
        assert_eq!(rt; differing(rt.alloc(), table)?.as_str(), "");
    }
    Ok(())
}
