//! Bodies of rules, run over the old version's heap.
ghost use Rattle.std.specs.Prelude.{◌≡◌};
ghost use Rattle.xf_plan.specs.Plain.{given_of, action_of, actions_of};
ghost use Rattle.xf_plan.specs.RuleCode.{given, after_action, after_actions, body_value};
ghost use Rattle.xf_eval.specs.Readings.{number_given, pointer_given, reading};

use crate::code::{evaluate, zero_test};
use crate::defaults::zero_value;
use kt_heap::Heap;
use kt_mem::{Trap, Value, narrow};
use kt_types::{Ty, TypeTable};
use sqlite_items::{Boxed, Items};
use xf_plan::{Action, Given, PreValue};

/// What a body gives to a target of a type: the value that it assigns last; zero or null where it assigns none.
pub(crate) fn body_value(
    body: &Items<Action>,
    types: &TypeTable,
    heap: &Heap,
    locals: &[Value],
    ty: Ty,
) -> Result<PreValue, Trap>
    ensures { result ≡ body_value (reading types.now heap.now locals.now) ty (actions_of body.now) }
{
    after_actions(
        body,
        types,
        heap,
        locals,
        ty,
        PreValue::Plain(zero_value(ty)),
    )
}

// The value that was assigned last, where this one was before.
#[cycle(run)]
fn after_actions(
    actions: &Items<Action>,
    types: &TypeTable,
    heap: &Heap,
    locals: &[Value],
    ty: Ty,
    before: PreValue,
) -> Result<PreValue, Trap>
    ensures { result ≡ after_actions (reading types.now heap.now locals.now) ty before (actions_of actions.now) }
{
    let mut value = before;
    for action in actions.as_slice() {
        value = after_action(action, types, heap, locals, ty, value)?;
    }
    Ok(value)
}

#[cycle(run)]
fn after_action(
    action: &Action,
    types: &TypeTable,
    heap: &Heap,
    locals: &[Value],
    ty: Ty,
    before: PreValue,
) -> Result<PreValue, Trap>
    ensures { result ≡ after_action (reading types.now heap.now locals.now) ty before (action_of action.now) }
{
    match action {
        Action::Assigned(value) => given(value.get(), types, heap, locals, ty),
        Action::Conditional(test, a, b) => {
            match zero_test(evaluate(test.get(), types, heap, locals)) {
                Err(trap) => Err(trap),
                Ok(true) => after_boxed(b, types, heap, locals, ty, before),
                Ok(false) => after_boxed(a, types, heap, locals, ty, before),
            }
        }
        Action::Compound(actions) => after_actions(actions, types, heap, locals, ty, before),
    }
}

#[cycle(run)]
fn after_boxed(
    action: &Boxed<Action>,
    types: &TypeTable,
    heap: &Heap,
    locals: &[Value],
    ty: Ty,
    before: PreValue,
) -> Result<PreValue, Trap>
    ensures { result ≡ after_action (reading types.now heap.now locals.now) ty before (action_of action.now) }
{
    after_action(action.get(), types, heap, locals, ty, before)
}

// What is assigned to a target of a type.
#[cycle(given)]
fn given(
    value: &Given,
    types: &TypeTable,
    heap: &Heap,
    locals: &[Value],
    ty: Ty,
) -> Result<PreValue, Trap>
    ensures { result ≡ given (reading types.now heap.now locals.now) ty (given_of value.now) }
{
    match value {
        Given::Number(number) => number_given(evaluate(number.get(), types, heap, locals), ty),
        Given::Null => Ok(PreValue::Plain(Value::Null)),
        Given::Transformed(pointer) => {
            pointer_given(evaluate(pointer.get(), types, heap, locals))
        }
        Given::New(element, count) => Ok(PreValue::Fresh(*element, *count)),
        Given::Chosen(test, a, b) => match zero_test(evaluate(test.get(), types, heap, locals)) {
            Err(trap) => Err(trap),
            Ok(true) => given_boxed(b, types, heap, locals, ty),
            Ok(false) => given_boxed(a, types, heap, locals, ty),
        },
    }
}

#[cycle(given)]
fn given_boxed(
    value: &Boxed<Given>,
    types: &TypeTable,
    heap: &Heap,
    locals: &[Value],
    ty: Ty,
) -> Result<PreValue, Trap>
    ensures { result ≡ given (reading types.now heap.now locals.now) ty (given_of value.now) }
{
    given(value.get(), types, heap, locals, ty)
}

// A number that is converted to the type, unless there was a trap.
fn number_given(value: Result<Value, Trap>, ty: Ty) -> Result<PreValue, Trap>
    ensures { result ≡ number_given value ty }
{
    match value {
        Ok(value) => match narrow(ty, value) {
            Ok(value) => Ok(PreValue::Plain(value)),
            Err(trap) => Err(trap),
        },
        Err(trap) => Err(trap),
    }
}

// What becomes of an old pointer, unless there was a trap.
fn pointer_given(value: Result<Value, Trap>) -> Result<PreValue, Trap>
    ensures { result ≡ pointer_given value }
{
    match value {
        Ok(value) => Ok(PreValue::OldPointer(value)),
        Err(trap) => Err(trap),
    }
}
