//! Rules. `depth`: how many constructs may be opened.

ghost use Rattle.std.specs.Prelude.{◌≡◌, ◌<◌, [], length, map, Ok, IfOk};
ghost use Rattle.kt_grammar.specs.Cursor.{Gives};
ghost use Rattle.kt_grammar.specs.Lists.{is_end};
ghost use Rattle.xf_syntax.specs.Tree.{rule_of};
ghost use Rattle.xf_syntax.specs.Reading.{moved_behind, paired_behind, struct_behind, started_behind, rule_at, rules_at};

use super::body::ending;
use super::side::{field_behind, named_behind, side, struct_name, target};
use super::tree::{RuleItem, Side, StructName};
use kt_grammar::{Fault, Keyword, Sign, Symbol, begins_sign, behind, behind_first, beside, name};
use sqlite_items::Items;
use std::alloc::Global;

/// A rule behind its left side.
#[tactic(auto, unfolding(crate::specs::Reading::moved_behind))]
fn moved(
    alloc: Global,
    depth: u32,
    left: Side,
    symbols: &[Symbol],
) -> Result<(RuleItem, &[Symbol]), Fault>
    ensures read { Gives (λ x. (rule_of x.0, x.1.now)) result (moved_behind depth left symbols.now) }
    ensures shorter { IfOk result (λ x. length x.1.now < length symbols.now) }
{
    let (left, rest) = beside(left, behind(Sign::Arrow, symbols))?;
    let (left, (right, rest)) = beside(left, side(rest))?;
    let ((left, right), (body, rest)) = beside((left, right), ending(alloc, depth, rest))?;
    Ok((RuleItem::Move(left, right, body), rest))
}

/// Two structs behind the arrow.
#[tactic(auto, unfolding(crate::specs::Reading::paired_behind))]
fn paired(old: StructName, symbols: &[Symbol]) -> Result<(RuleItem, &[Symbol]), Fault>
    ensures read { Gives (λ x. (rule_of x.0, x.1.now)) result (paired_behind old symbols.now) }
    ensures shorter { IfOk result (λ x. length x.1.now < length symbols.now) }
{
    let (old, (new, rest)) = beside(old, struct_name(symbols))?;
    let ((old, new), rest) = beside((old, new), behind(Sign::Semicolon, rest))?;
    Ok((RuleItem::Structs(old, new), rest))
}

/// A rule of structs or of a field, behind the struct.
#[tactic(auto, unfolding(crate::specs::Reading::struct_behind))]
fn structured(
    alloc: Global,
    depth: u32,
    of: StructName,
    symbols: &[Symbol],
) -> Result<(RuleItem, &[Symbol]), Fault>
    ensures read { Gives (λ x. (rule_of x.0, x.1.now)) result (struct_behind depth of symbols.now) }
    ensures shorter { IfOk result (λ x. length x.1.now < length symbols.now) }
{
    if begins_sign(Sign::Arrow, symbols) {
        return paired(of, behind_first(symbols));
    }
    let (field, rest) = field_behind(of, symbols)?;
    moved(alloc, depth, Side::Target(field), rest)
}

/// A rule behind `INIT`.
#[tactic(auto, unfolding(crate::specs::Reading::started_behind))]
fn initial(alloc: Global, depth: u32, symbols: &[Symbol]) -> Result<(RuleItem, &[Symbol]), Fault>
    ensures read { Gives (λ x. (rule_of x.0, x.1.now)) result (started_behind depth symbols.now) }
    ensures shorter { IfOk result (λ x. length x.1.now < length symbols.now) }
{
    let (target, rest) = target(symbols)?;
    let (target, (body, rest)) = beside(target, ending(alloc, depth, rest))?;
    Ok((RuleItem::Initial(target, body), rest))
}

/// A rule.
#[tactic(auto, unfolding(crate::specs::Reading::rule_at))]
fn rule(alloc: Global, depth: u32, symbols: &[Symbol]) -> Result<(RuleItem, &[Symbol]), Fault>
    ensures read { Gives (λ x. (rule_of x.0, x.1.now)) result (rule_at depth symbols.now) }
    ensures shorter { IfOk result (λ x. length x.1.now < length symbols.now) }
{
    match symbols {
        [Symbol::Keyword(at, Keyword::Struct), rest @ ..] => {
            let (name, rest) = name(rest)?;
            structured(alloc, depth, StructName { at: *at, name }, rest)
        }
        [Symbol::Keyword(_, Keyword::Init), rest @ ..] => initial(alloc, depth, rest),
        _ => {
            let (first, rest) = name(symbols)?;
            let (left, rest) = named_behind(first, rest)?;
            moved(alloc, depth, left, rest)
        }
    }
}

/// Whether no symbol is left.
fn is_end(symbols: &[Symbol]) -> bool
    ensures { result ≡ is_end symbols.now }
{
    matches!(symbols, [])
}

/// The rules of a file.
#[tactic(auto, using(crate::proofs::Loops::rule_loop), unfolding(crate::specs::Reading::rules_at))]
pub(crate) fn rules(alloc: Global, depth: u32, symbols: &[Symbol]) -> Result<Items<RuleItem>, Fault>
    ensures read { Gives (λ x. (map rule_of x, [])) result (rules_at depth symbols.now) }
{
    let mut done = Items::new(alloc);
    let mut rest = symbols;
    while !is_end(rest) {
        let (rule, behind) = rule(alloc, depth, rest)?;
        done.push(rule)?;
        rest = behind;
    }
    Ok(done)
}
