//! What a source gives.
ghost use Rattle.std.specs.Prelude.{◌≡◌, ◌∷◌, []};
ghost use Rattle.std.specs.Option.{option_copied, option_map};
ghost use Rattle.kt_heap.specs.Heap.{memory};
ghost use Rattle.kt_heap.specs.Objects.{shown};
ghost use Rattle.xf_plan.specs.Plain.{plan_of};
ghost use Rattle.xf_plan.specs.PreValues.{old_value, pointer_to, pre_value};
ghost use Rattle.xf_eval.specs.Parts.{source_of};

use crate::bodies::body_value;
use crate::defaults::{by_default, zero_value};
use crate::found::Found;
use kt_heap::{Heap, Obj};
use kt_mem::{Name, Trap, Value};
use kt_types::Ty;
use xf_plan::{PreValue, RulePlan};

/// The pre-value of a cell of a type with this source, whose old thing is the object of a name.
pub(crate) fn pre_value(
    plan: &RulePlan,
    heap: &Heap,
    name: Name,
    ty: Ty,
    source: Found,
) -> Result<PreValue, Trap>
    ensures { result ≡ pre_value (plan_of plan.now) (memory heap.now) name ty (source_of source.entry) }
{
    match source {
        Found::Cell(place) => Ok(by_default(ty, old_value(heap, name, place))),
        Found::Zero => Ok(PreValue::Plain(zero_value(ty))),
        Found::Body(source, base, body) => {
            let locals = [pointer_to(name, source), pointer_to(name, base)];
            body_value(body, &plan.old, heap, &locals, ty)
        }
    }
}

// What the object of a name holds at a place, whether or not that is defined.
fn old_value(heap: &Heap, name: Name, place: u32) -> Value
    ensures { result ≡ old_value (memory heap.now) name place }
{
    match object(heap, name) {
        Some(object) => match object.cells.as_slice().get(place as usize) {
            Some(cell) => cell.value(),
            None => Value::Undef,
        },
        None => Value::Undef,
    }
}

// The object of a name.
fn object(heap: &Heap, name: Name) -> Option<&Obj>
    ensures { option_map shown (option_copied result) ≡ (memory heap.now).at name }
{
    match name {
        Name::Glob(global) => heap.global(global),
        Name::Lit(version, literal) => heap.literal(version, literal),
        Name::Heap(address) => heap.object(address),
    }
}

// The pointer to a place of the object of a name; where there is no place, the undefined value.
fn pointer_to(name: Name, place: Option<u32>) -> Value
    ensures { result ≡ pointer_to name place }
{
    match place {
        Some(place) => Value::Ptr(name, place),
        None => Value::Undef,
    }
}
