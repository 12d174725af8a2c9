//! Rule files that another reader of rule files finds to be some; what their rules mean is not looked at.

use crate::verdict::verdict;
use std::alloc::{AllocError, Global};
use std::test::Fail;

const FILES: &str = "\
INIT g;
g -> g;
INIT st;
g -> gl;
g -> zz;
gc -> g;
gl -> g;
st -> g;
zz -> g;
INIT g2;
INIT n2;
gl -> gl;
lk -> lk;
ps -> gp;
st -> st;
g -> f::q;
g3 -> q7;
main -> g;
INIT g: { }
INIT lk: {}
lk -> g: {}
INIT ar: { }
g -> g: {;;}
/* rules */
INIT g: { ; }
f::q -> f::r;
f::q -> h::q;
f::z -> f::r;
h::q -> h::q;
f::zz -> f::q;
g -> g; g -> g;
INIT struct Z.x;
g -> g: {1 = 1;}
g -> g; g -> gl;
g -> struct S.v;
g -> struct Z.v;
struct S.v -> g;
g -> g: { g = 1; }
lk -> g: {$out = 1;}
/* rules */ INIT g7;
g -> g: { $in.x = 1;}
g -> g: { $out = g; }
ps -> ps: {$out = 0;}
struct A -> struct B;
struct S -> struct S;
struct S -> struct Z;
struct T -> struct U;
struct Z -> struct S;
/* rules */ g3 -> q6;
ar -> g: {$out = $in;}
g -> g: {$out = $out;}
g -> g: {$out = *$in;}
g -> g: {$out = NULL;}
g -> gc: {$out = $in;}
st -> g: {$out = $in;}
INIT g: { $out = $in; }
INIT zz: { $out = yy; }
g -> g: {$out = $in.x;}
g -> g: {(($out)) = 1;}
ps -> ps: {$out = $in;}
/* rules */ g11 -> q17;
g -> g: {$out = $in->x;}
ps -> gp: {$out = NULL;}
ps -> ps: {$out = NULL;}
st -> g: {$out = $in.v;}
struct S0 -> struct T9;
g -> g: { $out = $base; }
g -> g: {$out = $in + 1;}
struct S.a -> struct S.v;
struct S.v -> struct S.a;
struct S.v -> struct T.k;
struct S.v -> struct Z.k;
struct Z.v -> struct S.v;
g -> g: {$out = 1 + $out;}
g -> g: {$xform($in) = 1;}
struct S.v -> struct S.zz;
INIT g: { $out = $base.v; }
f::q -> f::q; f::r -> f::q;
g -> g: {$out = (int*)$in;}
g -> g: {$out = 1 ? 2 : 3;}
g8 -> g8: { $out = NULL; }
gl -> g: {$out = (int)$in;}
k -> k: { $out = $in + 1; }
struct S.next -> struct S.t;
g -> g: {$out = $oldsym(lk);}
g -> g: {$out = $oldsym(zz);}
f::z -> f::r: {$out = $in->v;}
g -> g: {$out = !$oldsym(ps);}
g -> g: {$out = *$oldsym(ar);}
g -> g: {$out = -$oldsym(ps);}
struct S0.a4 -> struct S0.r8;
f::q -> f::r: {$out = $base.v;}
f::q -> f::r: {$out = $in + 1;}
g -> g: {$out = $oldsym(lk).x;}
g -> g: {$out = $oldsym(st).v;}
g2 -> q8; main::k -> main::k9;
INIT struct S.v: {$out = $base;}
INIT tx: {$out = $new(char, 5);}
g -> g: {$out = $oldsym(ps)->v;}
g -> g: {$out = $oldsym(tx)[0];}
gp -> gp: {$out = $new(int, 2);}
ps -> ps: {$out = $new(int, 1);}
ps -> ps: {$out = $xform(NULL);}
g -> g: {$out = $oldsym(gp) * 2;}
g -> g: {$out = $oldsym(ps)->zz;}
g2 -> q5; INIT g6: { $out = 0; }
g8 -> g8: { $out = $in % 1000; }
INIT struct S.v: {$out = $base.v;}
g -> g: {$out = !$in && $in || 0;}
g -> g: {$out = (*$oldsym(ps)).v;}
ps -> ps: {$out = $xform($in->v);}
a -> a: { if ($in == 0) $out = 7; }
f::z -> f::z: {$out = $xform($in);}
g4 -> g10: { $out = 30; } INIT g4;
p -> p: { $out = $xform($in + 1); }
ps -> ps: {$out = 1 + $xform($in);}
tx -> tx: {$out = $xform($in + 1);}
g -> g: {$out = $in; ; {} $out = 2;}
g -> g: {if ($oldsym(st)) $out = 1;}
INIT struct S.v: {$out = $base.t->k;}
g -> g: {$out = $xform($oldsym(ps));}
p -> p: { $out = $xform($in->next); }
ps -> ps: {$out = $new(struct S, 0);}
ps -> ps: {$out = $new(struct S, 1);}
ps -> ps: {$out = $new(struct T, 1);}
ps -> ps: {$out = $new(struct U, 1);}
ps -> ps: {$out = $xform($in->next);}
ps -> ps: {$out = $xform($xform($in));}
struct S.m -> struct S.v: {$out = $in;}
f::z -> f::q: {$out = $in ? $in->v : 0;}
g -> g: {$out = $oldsym(gp) + 1 == NULL;}
ps -> ps: {$out = $new(struct S, 65537);}
ps -> ps: {if ($xform($in)) $out = NULL;}
INIT struct S.l: {$out = $base.l * 2 - 1;}
ps -> ps: {$out = 1 ? $xform($in) : NULL;}
struct S.a -> struct S.v: {$out = $in[0];}
/* rules */ g1 -> q11; g7 -> q12; INIT g3;
g -> g: {$out = $oldsym(gp) - $oldsym(gp);}
struct S -> struct T; struct S -> struct S;
struct S -> struct T; struct T -> struct S;
INIT struct S.t: {$out = $new(struct T, 1);}
g -> g: {$out = $oldsym(ps) == $oldsym(gp);}
g -> g: {$out = $oldsym(ps)->t + 1 == NULL;}
g5 -> q10; g8 -> g8: { $out = $in % 1000; }
ps -> ps: {$out = $xform($in) ? NULL : NULL;}
struct S.v -> struct S.v: { $out = 1 / $in; }
INIT struct S.v: {$out = $base.next->next->v;}
/* rules */ g6 -> g6: { $out = $new(int, 1); }
struct S1.v -> struct S1.v: { $out = $in / 3; }
INIT struct S0.f10; struct S0.f2 -> struct S0.r9;
INIT struct S0.f8: { $out = $oldsym(cnt) && 12; }
g -> g: {$out = $oldsym(ps) == $oldsym(ps)->next;}
g -> g: {if ($oldsym(ps)) $out = 1; else $out = 2;}
struct S.k -> struct S.k: { $out = $in + $base.v; }
INIT struct S2.f10; INIT g5; struct S1 -> struct T9;
struct S.next -> struct S.t: {$out = $xform($in->t);}
INIT struct S0.f7: { $out = $new(int, 1); } g5 -> q9;
struct S0 -> struct T8; INIT g5; main::k -> main::k9;
g -> g: {if ($in) if ($in > 1) $out = 1; else $out = 2;}
g4 -> g4: { $out = $in % 100; } INIT g8: { $out = 41; }
/* rules */ INIT g5; struct S0 -> struct T10; g8 -> q12;
INIT q: { $out = $oldsym(k) == 2 ? $new(int, 2) : NULL; }
g2 -> q10; struct S0.f1 -> struct S0.f1: { $out = NULL; }
gl -> gl: {$out = $oldsym(gp) == NULL ? 1 : *$oldsym(gp);}
INIT struct S1.f8: { $out = $oldsym(g6) * $oldsym(round); }
struct S.next -> struct S.next: {$out = $xform($base.next);}
/* rules */ INIT g7; n2 -> n2: { $out = $in % 100; } INIT g3;
INIT g13; struct S0.f1 -> struct S0.r15; struct S2 -> struct T14;
struct S0.next -> struct S0.next: { $out = $xform($oldsym(pS0)); }
rec::u -> rec::q; struct S1.next -> struct S1.next: { $out = NULL; }
/* rules */ g5 -> q10; struct S0.a4 -> struct S0.a4: { $out = NULL; }
ps -> ps: {$out = $in ? $xform($in) : $in ? NULL : $new(struct S, 1);}
INIT struct S.t: {$out = $base.v ? $new(struct T, 2) : $xform($base.t);}
/* rules */ g2 -> q6; g1 -> g1: { $out = $xform($oldsym(g2)); } INIT g3;
/* rules */ g6 -> g6: { $out = $new(char, 1); } struct S0 -> struct T10;
struct S1 -> struct T13; INIT struct T13.f16: { $out = $xform($base.f5); }
INIT struct S0.f6: { $out = NULL; } g4 -> g4: { $out = $new(struct S0, 2); }
rec::q -> rec::u; g10 -> q13; struct S1 -> struct T11; struct S2 -> struct T12;
struct S2 -> struct T10; struct S1.f1 -> struct T9.r11; struct S1 -> struct T9;
INIT struct S2.f16: { if ($base.n9) $out = ($base.v) % 100; else { $out = 4; } }
w1::i -> w1::i: { $out = $in + 0; } g8 -> q11; INIT g6; struct S0 -> struct T10;
/* rules */ main::k -> main::k11; INIT struct S0.f9: { $out = $xform($base.f2); }
/* rules */ main::k -> main::k9; rec::n -> rec::q: { $out = $in * 100; } INIT g8;
INIT struct S0.f11; INIT struct S0.f10: { $out = $oldsym(g4) && $oldsym(round); }
/* rules */ INIT g6; INIT struct S0.f7; INIT g4; INIT g5; INIT round: { round = 3; }
struct S0 -> struct T4; g2 -> g2: { $out = $in % 100; } rec::n -> rec::q: { $out = $in * 100; }
/* rules */ INIT g5: { $out = $oldsym(g5); if ($oldsym(g5)) ; else $out = 3; } g3 -> q9; INIT g6;
/* rules */ g6 -> g6: { $out = $in % 1000; } INIT g3; round -> pS0: { $out = $in ? NULL : NULL; }
/* rules */ INIT struct S0.f9: { $out = $oldsym(round); } INIT struct S0.f10; g8 -> g8: { $out = $new(int, 3); }
struct S.next -> struct S.next: { $out = $base.v ? $new(struct S, 1) : NULL; } INIT q: { $out = $new(struct S, 1); }
/* rules */ struct S0.a3 -> struct S0.r6; rec::n -> rec::q: { $out = $in * 100; } w0::i -> w0::i: { $out = $in + 0; }
g6 -> g6: { $out = $oldsym(round) ? $xform($oldsym(g5)) : NULL; } g5 -> g5: { $out = $xform($oldsym(pS0)); } INIT g4;
/* rules */ struct S0 -> struct T7; struct S0.n3 -> struct T7.n3: { $out = (($base.next ? $base.next->v : 7)) % 100; }
/* rules */ g5 -> g5: { $out = $oldsym(cnt) ? $xform($oldsym(pS1)) : $new(struct S1, 1); } struct S1.f2 -> struct S1.r6;
INIT g12; INIT struct S1.f17; INIT struct S0.f15; struct S1.a6 -> struct S1.a6: { $out = $xform($base.next); } g14 -> q18;
INIT struct S0.f11: { $out = ($base.a5 ? $base.a5->v : 7) * 5 * $base.f3; } struct S0.f2 -> struct S0.f2: { $out = NULL; }
/* rules */ INIT struct S0.f5: { if ($base.v == $oldsym(cnt) - 36 && $oldsym(g2)) $out = ($base.v) % 100; else { $out = 5; } }
INIT g5; INIT struct S0.f6: { $out = $base.f2; if ($base.f2 && ($base.next ? $base.next->v : 7) - $base.f2) ; else $out = 3; }
struct S0.v -> struct S0.v: { $out = $in % 2; } INIT g4; struct S0.f2 -> struct S0.f2: { $out = $new(struct S0, 1); } INIT g8;
";

/// The first file that is refused, with what is told of it.
fn refused(alloc: Global, table: &str) -> Result<String, AllocError> {
    for row in table.lines() {
        let found = verdict(alloc, row)?;
        if !found.is_empty() {
            return format!(in alloc; "{found}: {row}");
        }
    }
    Ok(String::new(alloc))
}

#[test]
fn rule_files_are_read(rt: HostRuntime) -> Result<(), Fail> {
    assert_eq!(rt; refused(rt.alloc(), FILES)?.as_str(), "");
    assert_eq!(rt; verdict(rt.alloc(), "")?.as_str(), "");
    Ok(())
}
