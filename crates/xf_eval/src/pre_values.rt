//! Pre-values. The calls that may want memory take an allocator; as they are run here, none takes any.
ghost use Rattle.std.specs.Prelude.{◌≡◌, ◌+◌, ◌*◌, ◌<◌, ◌≤◌, true, IsSome, IfSome, Some, slice_get, length, map, option_and_then};
ghost use Rattle.kt_types.specs.Layout.{cells};
ghost use Rattle.kt_mem.specs.declared.memory.Name.TheVariants as name;
ghost use Rattle.kt_heap.specs.Heap.{given, memory};
ghost use Rattle.kt_mem.specs.Renaming.{rename_value, renamed};
ghost use Rattle.kt_heap.specs.ByNumber.{by_number, HoldsGiven, WasGiven};
ghost use Rattle.xf_plan.specs.Correspondence.{converts, new_type};
ghost use Rattle.xf_plan.specs.Plain.{global_rule_of, global_source_of, local_rule_of, local_source_of, plan_of};
ghost use Rattle.xf_plan.specs.PreValues.{origin, pre_argument, pre_local};
ghost use Rattle.xf_plan.specs.Sources.{width};
ghost use Rattle.xf_plan.specs.Whole.{HasFewCells, IsWhole};
ghost use Rattle.std.specs.Option.{option_copied, option_map};
ghost use Rattle.xf_eval.specs.ByNumber.{answered_by_number};
ghost use Rattle.xf_eval.specs.Asked.{Answers, IsElement, cell_value, part_cell, global_cell, global_value, local_value, local_rule};

use crate::bodies::body_value;
use crate::cells::pre_value;
use crate::defaults::by_default;
use crate::faults::PreFault;
use crate::fields::width;
use crate::sources::{global_source, source_of};
use kt_heap::Heap;
use kt_mem::{Name, Trap, Value};
use kt_types::Ty;
use std::alloc::Global;
use xf_plan::{GlobalRule, GlobalSource, LocalRule, LocalSource, PreValue, RulePlan};

/// What the argument of a thread is to be, where its entry function took it at the old type at the place `from` and takes it
/// at the new type at the place `to`.
pub fn pre_argument(plan: &RulePlan, from: u32, to: u32, value: Value) -> PreValue
    requires from { from < length plan.now.old.types }
    requires to { to < length plan.now.new.types }
    requires converts { converts (plan_of plan.now) from to ≡ true }
    ensures { IfSome (slice_get plan.now.new.types to) (λ t. result ≡ pre_argument t value) }
{
    match plan.new.get(to) {
        Some(ty) => by_default(ty, value),
        None => PreValue::Plain(value),
    }
}

/// What a cell of an element of an object's image is to be: of the live heap object at an address, an element of it, and a cell
/// of the new type to which its own corresponds.
pub fn pre_cell(
    _alloc: Global,
    plan: &RulePlan,
    heap: &Heap,
    object: u64,
    element: u32,
    cell: u32,
) -> Result<PreValue, PreFault>
    requires plan { IsWhole (plan_of plan.now) }
    requires element { IfSome ((memory heap.now).at (name.Heap object)) (λ o. IsElement (plan_of plan.now) element o) }
    requires there { IsSome (cell_value (plan_of plan.now) (memory heap.now) (name.Heap object) element cell) }
    ensures value { IfSome (cell_value (plan_of plan.now) (memory heap.now) (name.Heap object) element cell) (Answers result) }
    ensures by_number { HoldsGiven (given heap.now) (memory heap.now) → IfSome (cell_value (plan_of plan.now) (by_number (given heap.now) (memory heap.now)) (name.Heap (renamed (given heap.now) object)) element cell) (Answers (answered_by_number (given heap.now) result)) }
{
    heap.law();
    match heap.object(object) {
        Some(old) => answer(cell_value(plan, heap, object, old.ty, element, cell)),
        None => unreachable!(),
    }
}

// The same, of an object of this element type.
fn cell_value(
    plan: &RulePlan,
    heap: &Heap,
    object: u64,
    old: u32,
    element: u32,
    cell: u32,
) -> Result<PreValue, Trap>
    requires plan { IsWhole (plan_of plan.now) }
    requires element { (element + 1) * width plan.now.old old ≤ 65536 }
    requires there { IsSome (option_and_then (part_cell (plan_of plan.now) (memory heap.now) (name.Heap object) element cell old) (new_type (plan_of plan.now) old)) }
    ensures { option_and_then (part_cell (plan_of plan.now) (memory heap.now) (name.Heap object) element cell old) (new_type (plan_of plan.now) old) ≡ Some result }
{
    let Some(new) = plan.new_type(old) else {
        unreachable!();
    };
    let ty = cell_type(plan, new, cell);
    let step = width(&plan.old, old);
    let source = source_of(plan, old, new, cell).moved_by(element * step, step);
    pre_value(plan, heap, Name::Heap(object), ty, source)
}

// The type of a cell of a new type.
fn cell_type(plan: &RulePlan, new: u32, cell: u32) -> Ty
    requires { IsSome (slice_get (cells plan.now.new new) cell) }
    ensures { slice_get (cells plan.now.new new) cell ≡ Some result }
{
    if !plan.new.is_complete(new) {
        unreachable!();
    }
    plan.new.cell_type(new, cell)
}

/// What a cell of a mapped global of the new version is to be.
pub fn pre_global(
    _alloc: Global,
    plan: &RulePlan,
    heap: &Heap,
    global: u32,
    cell: u32,
) -> Result<PreValue, PreFault>
    requires plan { IsWhole (plan_of plan.now) }
    requires there { IsSome (global_value (plan_of plan.now) (memory heap.now) global cell) }
    ensures value { IfSome (global_value (plan_of plan.now) (memory heap.now) global cell) (Answers result) }
    ensures by_number { HoldsGiven (given heap.now) (memory heap.now) → IfSome (global_value (plan_of plan.now) (by_number (given heap.now) (memory heap.now)) global cell) (Answers (answered_by_number (given heap.now) result)) }
{
    heap.law();
    match plan.globals.get(global as usize) {
        Some(rule) => answer(global_value(plan, heap, rule, cell)),
        None => unreachable!(),
    }
}

// The same, of a global of this rule.
fn global_value(
    plan: &RulePlan,
    heap: &Heap,
    rule: &GlobalRule,
    cell: u32,
) -> Result<PreValue, Trap>
    requires plan { IsWhole (plan_of plan.now) }
    requires few { HasFewCells (plan_of plan.now) (global_rule_of rule.now).source }
    requires there { IsSome (global_cell (plan_of plan.now) (memory heap.now) cell (global_rule_of rule.now)) }
    ensures { global_cell (plan_of plan.now) (memory heap.now) cell (global_rule_of rule.now) ≡ Some result }
{
    let wide = width(&plan.new, rule.ty);
    if wide == 0 {
        unreachable!();
    }
    let ty = cell_type(plan, rule.ty, cell % wide);
    let source = global_source(plan, rule, cell);
    pre_value(plan, heap, origin(&rule.source), ty, source)
}

// The old global from which a global comes.
fn origin(source: &GlobalSource) -> Name
    ensures { result ≡ origin (global_source_of source.now) }
{
    match source {
        GlobalSource::OldGlobal(global, _, _) => Name::Glob(*global),
        GlobalSource::GlobalBody(Some(global), _) => Name::Glob(*global),
        GlobalSource::GlobalBody(None, _) => Name::Glob(0),
        GlobalSource::Unmapped => Name::Glob(0),
    }
}

/// What the noted local `local` of the new function `f` is to be, where the old local from which it comes holds `source`.
pub fn pre_local(
    _alloc: Global,
    plan: &RulePlan,
    heap: &Heap,
    f: u32,
    local: u32,
    source: Value,
) -> Result<PreValue, PreFault>
    requires { IsSome (local_value (plan_of plan.now) (memory heap.now) f local source) }
    ensures value { IfSome (local_value (plan_of plan.now) (memory heap.now) f local source) (Answers result) }
    ensures by_number { HoldsGiven (given heap.now) (memory heap.now) → WasGiven (given heap.now) source → IfSome (local_value (plan_of plan.now) (by_number (given heap.now) (memory heap.now)) f local (rename_value (renamed (given heap.now)) source)) (Answers (answered_by_number (given heap.now) result)) }
{
    heap.law();
    match local_value(plan, heap, f, local, source) {
        Some(value) => answer(value),
        None => unreachable!(),
    }
}

// The same: none where the plan has no source for the local.
fn local_value(
    plan: &RulePlan,
    heap: &Heap,
    f: u32,
    local: u32,
    source: Value,
) -> Option<Result<PreValue, Trap>>
    ensures { result ≡ local_value (plan_of plan.now) (memory heap.now) f local source }
{
    let rule = local_rule(plan, f, local)?;
    let Some(from) = &rule.source else {
        return None;
    };
    let ty = plan.new.get(rule.ty)?;
    Some(from_local(plan, heap, ty, from, source))
}

// The value of a new local of a type that comes from an old one.
fn from_local(
    plan: &RulePlan,
    heap: &Heap,
    ty: Ty,
    from: &LocalSource,
    source: Value,
) -> Result<PreValue, Trap>
    ensures { result ≡ pre_local (plan_of plan.now) (memory heap.now) ty (local_source_of from.now).body source }
{
    match &from.body {
        Some(body) => body_value(body, &plan.old, heap, &[source, Value::Undef], ty),
        None => Ok(by_default(ty, source)),
    }
}

// The rule of a noted local.
fn local_rule(plan: &RulePlan, f: u32, local: u32) -> Option<&LocalRule>
    ensures { option_map local_rule_of (option_copied result) ≡ local_rule (map local_rule_of plan.now.locals) f local }
{
    for rule in plan.locals.as_slice() {
        if rule.function == f && rule.local == local {
            return Some(rule);
        }
    }
    None
}

// An answer of the definition.
fn answer(value: Result<PreValue, Trap>) -> Result<PreValue, PreFault>
    ensures { Answers result value }
{
    match value {
        Ok(value) => Ok(value),
        Err(trap) => Err(PreFault::Trapped(trap)),
    }
}
