//! The source of a new cell, found by going down to it.
ghost use Rattle.std.specs.Prelude.{◌≡◌, ℕ, ◌*◌, ◌≤◌, Some, IsSome, option_and_then};
ghost use Rattle.std.specs.Option.{option_map};
ghost use Rattle.xf_plan.specs.Plain.{global_rule_of, plan_of};
ghost use Rattle.xf_plan.specs.Sources.{global_sources, of_longer, sources, width};
ghost use Rattle.xf_plan.specs.Whole.{HasFewCells, IsWhole};
ghost use Rattle.xf_eval.specs.Asked.{at_place, source_at};
ghost use Rattle.xf_eval.specs.Parts.{source_of, StaysWithin};

use crate::fields;
use crate::found::Found;
use crate::ways::{Part, Way, way_to};
use xf_plan::{GlobalRule, GlobalSource, RulePlan};

/// The source of a cell of a new thing that comes from an old one, by the places of their types.
pub(crate) fn source_of<'p>(plan: &'p RulePlan, from: u32, to: u32, cell: u32) -> Found<'p>
    requires plan { IsWhole (plan_of plan.now) }
    requires there { IsSome (source_at (plan_of plan.now) from to cell) }
    ensures source { source_at (plan_of plan.now) from to cell ≡ Some (source_of result) }
    ensures within { StaysWithin (width plan.now.old from) result }
{
    let most = fields::width(&plan.old, from);
    let mut part = Part {
        old: from,
        new: to,
        cell,
        start: 0,
    };
    for _ in 0..plan.new.type_count() {
        let Some(step) = way_to(plan, part.old, part.new, part.cell) else {
            unreachable!();
        };
        match step {
            Way::Ends(found) => return found.moved_by(part.start, most - part.start),
            Way::Into(next) => {
                part = Part {
                    start: part.start + next.start,
                    ..next
                };
            }
        }
    }
    unreachable!()
}

/// The source of a cell of a new global.
pub(crate) fn global_source<'p>(plan: &'p RulePlan, rule: &'p GlobalRule, cell: u32) -> Found<'p>
    requires plan { IsWhole (plan_of plan.now) }
    requires few { HasFewCells (plan_of plan.now) (global_rule_of rule.now).source }
    requires there { IsSome (at_place (global_sources (plan_of plan.now) (global_rule_of rule.now) (global_rule_of rule.now).source) cell) }
    ensures source { at_place (global_sources (plan_of plan.now) (global_rule_of rule.now) (global_rule_of rule.now).source) cell ≡ Some (source_of result) }
    ensures within { StaysWithin 65536 result }
{
    match &rule.source {
        GlobalSource::OldGlobal(_, old, count) => element_source(plan, *old, rule.ty, *count, cell),
        GlobalSource::GlobalBody(source, body) => Found::Body(start_of(*source), None, body),
        GlobalSource::Unmapped => unreachable!(),
    }
}

// The source of a cell of a new thing of elements that comes from an old one of that many.
fn element_source<'p>(plan: &'p RulePlan, from: u32, to: u32, count: u32, cell: u32) -> Found<'p>
    requires plan { IsWhole (plan_of plan.now) }
    requires few { count * width plan.now.old from ≤ 65536 }
    requires there { (m : ℕ) × IsSome (at_place (option_and_then (of_longer (width plan.now.old from) count (width plan.now.new to) m) (sources (plan_of plan.now) from to)) cell) }
    ensures source { (m : ℕ) → IsSome (at_place (option_and_then (of_longer (width plan.now.old from) count (width plan.now.new to) m) (sources (plan_of plan.now) from to)) cell) → at_place (option_and_then (of_longer (width plan.now.old from) count (width plan.now.new to) m) (sources (plan_of plan.now) from to)) cell ≡ Some (source_of result) }
    ensures within { StaysWithin 65536 result }
{
    let wide = fields::width(&plan.new, to);
    let element = cell / wide;
    if element >= count {
        return Found::Zero;
    }
    let step = fields::width(&plan.old, from);
    source_of(plan, from, to, cell % wide).moved_by(element * step, step)
}

// Where a global begins, if there is one.
fn start_of(global: Option<u32>) -> Option<u32>
    ensures { result ≡ option_map (λ i. 0) global }
{
    match global {
        Some(_) => Some(0),
        None => None,
    }
}
