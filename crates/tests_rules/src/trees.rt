//! The trees of rule files: a text, an arrow, and its tree.

use crate::verdict::shown;
use std::alloc::{AllocError, Global};
use std::test::Fail;

const TREES: &str = "\
struct node -> struct item; => struct@0 node to struct@15 item / 28
INIT g; => init g@5 / 8
INIT struct node.t: { $out = $new(struct info *, 12); } => init struct@5 node.t 20-54 [$out = $new@29 struct info 1 12@49;] / 56
n -> m: { $out = $in; } => n@0 to m@5 8-22 [$out = $in;] / 24
f::x -> g::y; => f::x to g::y / 14
struct a.b->c; => struct@0 a.b to c@12 / 15
c -> struct a.b: {} => c@0 to struct@5 a.b 17-18 [] / 20
x->y:{if(1)if(2);else{;;$out=3;}} => x@0 to y@3 5-32 [if 1 if 2 ; else [;;$out = 3;]] / 34
x->y:{if(1){if(2);}else;} => x@0 to y@3 5-24 [if 1 [if 2 ;] else ;] / 26
x->y:{$base=$oldsym(q);} => x@0 to y@3 5-23 [$base = $oldsym@12 q;] / 25
a->b;INIT c; => a@0 to b@3 / init c@10 / 13
 => 1
";

/// The first row whose text has another tree, with that.
fn differing(alloc: Global, table: &str) -> Result<String, AllocError> {
    for row in table.lines() {
        let (text, wanted) = row.split_once("=> ").unwrap_or((row, ""));
        let found = shown(alloc, text)?;
        if found.as_str() != wanted {
            return format!(in alloc; "{found}, and not {row}");
        }
    }
    Ok(String::new(alloc))
}

#[test]
fn rules_have_their_trees(rt: HostRuntime) -> Result<(), Fail> {
    assert_eq!(rt; differing(rt.alloc(), TREES)?.as_str(), "");
    Ok(())
}
