//! One step down, from a new thing and the old one from which it comes to the parts that have a cell.
ghost use Rattle.std.specs.Prelude.{◌≡◌, ◌*◌, ◌≤◌, ℕ, suc, List, length, Option, Some, None, IsSome, IfSome, MatchOption, option_and_then};
ghost use Rattle.kt_types.specs.Layout.{cells_before, joined, layout, IsFitting};
ghost use Rattle.kt_types.specs.declared.kinds.Ty.{Ty};
ghost use Rattle.kt_types.specs.Table.{fields_of};
ghost use Rattle.kt_types.specs.declared.kinds.Ty.TheVariants as ty;
ghost use Rattle.xf_plan.specs.Plain.{field_rule_of, plan_of};
ghost use Rattle.xf_plan.specs.Plan.{rules_of};
ghost use Rattle.xf_plan.specs.Sources.{Source, of_fields, of_longer, sources_within, width};
ghost use Rattle.xf_plan.specs.Whole.{IsWhole};
ghost use Rattle.xf_eval.specs.Asked.{at_place};
ghost use Rattle.xf_eval.specs.Parts.{find_rule, AreSized, AtMost, IsWithin, LeadsBy};
ghost use Rattle.std.specs.Option.{option_map};

use crate::fields::{self, steps_to};
use crate::found::Found;
use kt_types::{FieldDecl, Ty, TypeTable};
use sqlite_items::at;
use xf_plan::{FieldRule, FieldSource, RulePlan};

/// A part of a new thing, and the old one from which it comes: their types, the place of the cell in the new part, and how
/// many cells stand before the old part.
#[derive(Clone, Copy)]
pub(crate) struct Part {
    pub(crate) old: u32,
    pub(crate) new: u32,
    pub(crate) cell: u32,
    pub(crate) start: u32,
}

/// Where a cell of a new thing leads.
#[derive(Clone, Copy)]
pub(crate) enum Way<'p> {
    /// The source of the cell.
    Ends(Found<'p>),
    /// The part that has the cell.
    Into(Part),
}

/// Where a cell of a new thing leads that comes from an old one, by the places of their types.
pub(crate) fn way_to<'p>(plan: &'p RulePlan, old: u32, new: u32, cell: u32) -> Option<Way<'p>>
    requires { IsWhole (plan_of plan.now) }
    ensures leads { (n : ℕ) → IsSome (at_place (sources_within (plan_of plan.now) (suc n) old new) cell) → LeadsBy (sources_within (plan_of plan.now) n) (at_place (sources_within (plan_of plan.now) (suc n) old new) cell) result }
    ensures within { IsWithin plan.now.old (width plan.now.old old) result }
{
    let most = fields::width(&plan.old, old);
    let t = plan.old.get(old)?;
    let u = plan.new.get(new)?;
    match t {
        Ty::Struct(s) => match u {
            Ty::Struct(r) => struct_way(plan, s, r, cell, most),
            _ => Some(Way::Ends(Found::Cell(0))),
        },
        Ty::Array(a, n) => match u {
            Ty::Array(b, m) => array_way(plan, a, n, b, m, cell),
            _ => Some(Way::Ends(Found::Cell(0))),
        },
        _ => Some(Way::Ends(Found::Cell(0))),
    }
}

// The same of a struct, whose old one has that many cells.
fn struct_way<'p>(plan: &'p RulePlan, s: u32, r: u32, cell: u32, most: u32) -> Option<Way<'p>>
    requires plan { IsWhole (plan_of plan.now) }
    requires few { most ≤ 65536 }
    requires cells { IfSome (fields_of plan.now.old s) (λ fields. (cs : List Ty) → joined (layout plan.now.old) fields ≡ Some cs → length cs ≤ most) }
    ensures leads { (at : ℕ → ℕ → Option (List Source)) → AreSized plan.now.new at → IsSome (at_place (option_and_then (λ fields. of_fields (plan_of plan.now) at fields (rules_of (plan_of plan.now) r)) (fields_of plan.now.old s)) cell) → LeadsBy at (at_place (option_and_then (λ fields. of_fields (plan_of plan.now) at fields (rules_of (plan_of plan.now) r)) (fields_of plan.now.old s)) cell) result }
    ensures within { IsWithin plan.now.old most result }
{
    let fields = plan.old.fields(s)?;
    let (rule, cell) = rule_at(plan, r, cell)?;
    match &rule.source {
        FieldSource::OldField(k) => {
            let field = at(fields, *k as usize)?;
            Some(Way::Into(Part {
                old: field.ty,
                new: rule.ty,
                cell,
                start: steps_to(&plan.old, s, fields, *k),
            }))
        }
        FieldSource::ZeroField => Some(Way::Ends(Found::Zero)),
        FieldSource::FieldBody(source, body) => {
            let source = place_of(&plan.old, s, fields, *source, most);
            Some(Way::Ends(Found::Body(source, Some(0), body)))
        }
    }
}

// How many cells stand before the field of that number, if any, of a struct of that many cells.
fn place_of(
    types: &TypeTable,
    s: u32,
    fields: &[FieldDecl],
    source: Option<u32>,
    most: u32,
) -> Option<u32>
    requires known { fields_of types.now s ≡ Some fields.now }
    requires cells { cells_before types.now fields.now (length fields.now) ≤ most }
    requires few { most ≤ 65536 }
    ensures place { result ≡ option_map (cells_before types.now fields.now) source }
    ensures within { AtMost most result }
{
    match source {
        Some(k) => Some(steps_to(types, s, fields, k)),
        None => None,
    }
}

// The same of an array of elements.
fn array_way<'p>(plan: &'p RulePlan, a: u32, n: u32, b: u32, m: u32, cell: u32) -> Option<Way<'p>>
    requires plan { IsWhole (plan_of plan.now) }
    requires old { IsFitting plan.now.old (ty.Array a n) }
    requires new { IsFitting plan.now.new (ty.Array b m) }
    ensures leads { (at : ℕ → ℕ → Option (List Source)) → AreSized plan.now.new at → IsSome (at_place (option_and_then (of_longer (width plan.now.old a) n (width plan.now.new b) m) (at a b)) cell) → LeadsBy at (at_place (option_and_then (of_longer (width plan.now.old a) n (width plan.now.new b) m) (at a b)) cell) result }
    ensures within { IsWithin plan.now.old (n * width plan.now.old a) result }
{
    if n > m {
        return None;
    }
    let wide = plan.new.cells_of(b);
    let element = cell / wide;
    if element >= n {
        return Some(Way::Ends(Found::Zero));
    }
    Some(Way::Into(Part {
        old: a,
        new: b,
        cell: cell % wide,
        start: element * plan.old.cells_of(a),
    }))
}

// The rule of the field of a new struct that has a cell, and the cell's place in the field.
fn rule_at<'p>(plan: &'p RulePlan, r: u32, cell: u32) -> Option<(&'p FieldRule, u32)>
    ensures { MatchOption result (find_rule plan.now.new (rules_of (plan_of plan.now) r) cell ≡ None) (λ found. find_rule plan.now.new (rules_of (plan_of plan.now) r) cell ≡ Some (field_rule_of found.0.now, found.1)) }
{
    let mut left = cell;
    for rule in plan.fields.as_slice() {
        if rule.of == r {
            let wide = fields::width(&plan.new, rule.ty);
            if left < wide {
                return Some((rule, left));
            }
            left -= wide;
        }
    }
    None
}
