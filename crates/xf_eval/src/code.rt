//! Expressions of rule code, run over the old version's heap.
ghost use Rattle.std.specs.Prelude.{◌≡◌, List, slice_get};
ghost use Rattle.kt_meaning.specs.Thread.{defined_if};
ghost use Rattle.kt_tree.specs.Tree.{expression_of, expressions_of};
ghost use Rattle.kt_mem.specs.Comparisons.{zero_test};
ghost use Rattle.xf_plan.specs.RuleCode.{constant_value, evaluate, evaluate_all, loaded, next, requested, truth_of};
ghost use Rattle.kt_mem.specs.declared.memory.Value.{Value};
ghost use Rattle.xf_eval.specs.Operands.{gathered, list_of};
ghost use Rattle.xf_eval.specs.Readings.{reading};

use crate::operands::Operands;
use crate::operations::apply;
use kt_heap::Heap;
use kt_mem::{Name, Trap, Value, defined, is_zero, truth};
use kt_tree::{Constant, Expr, Request};
use kt_types::TypeTable;
use sqlite_items::{Boxed, Items};

/// The value of an expression over the heap, where locals hold these values.
#[cycle(evaluate)]
pub(crate) fn evaluate(
    expr: &Expr,
    types: &TypeTable,
    heap: &Heap,
    locals: &[Value],
) -> Result<Value, Trap>
    ensures { result ≡ evaluate (reading types.now heap.now locals.now) (expression_of expr.now) }
{
    match expr {
        Expr::Constant(value, _) => constant_value(*value),
        Expr::Local(n) => local_value(locals, *n),
        Expr::Operation(op, ty, operands) => match operands_of(operands, types, heap, locals) {
            Err(trap) => Err(trap),
            Ok(operands) => apply(types, *op, *ty, operands),
        },
        Expr::Request(request, ty, operands) => match operands_of(operands, types, heap, locals) {
            Err(trap) => Err(trap),
            Ok(operands) => requested(types, heap, request, *ty, operands),
        },
        Expr::And(a, b) => match zero_test(evaluate_boxed(a, types, heap, locals)) {
            Err(trap) => Err(trap),
            Ok(true) => Ok(truth(false)),
            Ok(false) => truth_of(evaluate_boxed(b, types, heap, locals)),
        },
        Expr::Or(a, b) => match zero_test(evaluate_boxed(a, types, heap, locals)) {
            Err(trap) => Err(trap),
            Ok(true) => truth_of(evaluate_boxed(b, types, heap, locals)),
            Ok(false) => Ok(truth(true)),
        },
        Expr::Choice(test, _, a, b) => {
            match zero_test(evaluate_boxed(test, types, heap, locals)) {
                Err(trap) => Err(trap),
                Ok(true) => evaluate_boxed(b, types, heap, locals),
                Ok(false) => evaluate_boxed(a, types, heap, locals),
            }
        }
        Expr::SetLocal(_, _) => Err(Trap::Uninit),
        Expr::SwapLocal(_, _) => Err(Trap::Uninit),
        Expr::Modify(..) => Err(Trap::Uninit),
        Expr::Call(_, _) => Err(Trap::Uninit),
    }
}

#[cycle(evaluate)]
fn evaluate_boxed(
    expr: &Boxed<Expr>,
    types: &TypeTable,
    heap: &Heap,
    locals: &[Value],
) -> Result<Value, Trap>
    ensures { result ≡ evaluate (reading types.now heap.now locals.now) (expression_of expr.now) }
{
    evaluate(expr.get(), types, heap, locals)
}

// The values of operands, from the left.
#[cycle(evaluate)]
fn operands_of(
    operands: &Items<Expr>,
    types: &TypeTable,
    heap: &Heap,
    locals: &[Value],
) -> Result<Operands, Trap>
    ensures { result ≡ gathered Operands.Empty (evaluate_all (reading types.now heap.now locals.now) (expressions_of operands.now)) }
{
    let mut values = Operands::Empty;
    for operand in operands.as_slice() {
        values = values.with(evaluate(operand, types, heap, locals)?);
    }
    Ok(values)
}

// The value that a constant is. Rule code has no string.
fn constant_value(value: Constant) -> Result<Value, Trap>
    ensures { result ≡ constant_value value }
{
    match value {
        Constant::Number(number) => Ok(Value::Num(number)),
        Constant::Null => Ok(Value::Null),
        Constant::Global(global) => Ok(Value::Ptr(Name::Glob(global), 0)),
        Constant::Literal(_) => Err(Trap::Uninit),
    }
}

// What a local holds, or the trap where that is undefined.
fn local_value(locals: &[Value], n: u32) -> Result<Value, Trap>
    ensures { result ≡ defined_if (slice_get locals.now n) }
{
    match locals.get(n as usize) {
        Some(value) => defined(*value),
        None => Err(Trap::Uninit),
    }
}

// What a request gives. Rule code has loads alone.
fn requested(
    types: &TypeTable,
    heap: &Heap,
    request: &Request,
    ty: Option<u32>,
    operands: Operands,
) -> Result<Value, Trap>
    ensures { (locals : List Value) → result ≡ requested (reading types.now heap.now locals) request.now ty (list_of operands) }
{
    match request {
        Request::Load => loaded(types, heap, ty, operands),
        _ => Err(Trap::Uninit),
    }
}

// What a load of the cell of a type at a pointer gives.
fn loaded(
    types: &TypeTable,
    heap: &Heap,
    ty: Option<u32>,
    operands: Operands,
) -> Result<Value, Trap>
    ensures { (locals : List Value) → result ≡ loaded (reading types.now heap.now locals) ty (list_of operands) }
{
    let Some(place) = ty else {
        return Err(Trap::Uninit);
    };
    let Operands::One(pointer) = operands else {
        return Err(Trap::Uninit);
    };
    match types.get(place) {
        Some(ty) => heap.load(pointer, ty),
        None => Err(Trap::Uninit),
    }
}

/// Whether a value is zero or null, unless there was a trap.
pub(crate) fn zero_test(value: Result<Value, Trap>) -> Result<bool, Trap>
    ensures { result ≡ next value zero_test }
{
    match value {
        Ok(value) => is_zero(value),
        Err(trap) => Err(trap),
    }
}

// 1 or 0, unless there was a trap.
fn truth_of(value: Result<Value, Trap>) -> Result<Value, Trap>
    ensures { result ≡ truth_of value }
{
    match zero_test(value) {
        Ok(zero) => Ok(truth(!zero)),
        Err(trap) => Err(trap),
    }
}
