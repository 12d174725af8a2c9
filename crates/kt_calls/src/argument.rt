//! Arguments of calls.

ghost use Rattle.std.specs.Prelude.{◌≡◌};
ghost use Rattle.std.specs.Option.{option_map};
ghost use Rattle.kt_typing.specs.declared.standing.Standing.TheVariants as standing;
ghost use Rattle.kt_typing.specs.Calls.{is_null_word, miscounted};
ghost use Rattle.kt_tree.specs.Tree.{expression_of};
ghost use Rattle.kt_operands.specs.Views.{operand_of};
ghost use Rattle.kt_calls.specs.Arguments.{operands_of, only, two, pair_of, despite};

use kt_operands::operand::Operand;
use kt_operands::refusal::Refusal;
use kt_operators::first::sooner;
use kt_tree::Expr;
use kt_typing::{Fault, Kind, Standing};

/// What the arguments of a call are, or their first fault.
pub type Arguments = Result<Vec<Operand>, Refusal>;

/// What may have no type.
pub type Answer = Result<Operand, Refusal>;

/// The one argument, where there is no other.
pub(crate) fn only(mut arguments: Vec<Operand>) -> Option<Operand>
    ensures { option_map operand_of result ≡ only (operands_of arguments) }
{
    if arguments.len() != 1 {
        return None;
    }
    arguments.pop()
}

/// The two arguments, where there is no other.
pub(crate) fn two(mut arguments: Vec<Operand>) -> Option<(Operand, Operand)>
    ensures { option_map pair_of result ≡ two (operands_of arguments) }
{
    if arguments.len() != 2 {
        return None;
    }
    let last = arguments.pop()?;
    match arguments.pop() {
        Some(first) => Some((first, last)),
        None => {
            drop(last);
            None
        }
    }
}

// Whether null of this tree stands as `NULL`, and is no choice.
#[tactic(auto, using(kt_tree::specs::Forms::forms))]
fn is_constant(tree: &Expr) -> bool
    ensures { result ≡ is_null_word standing.Null (expression_of tree.now) }
{
    match tree {
        Expr::Constant(_, _) => true,
        Expr::Local(_) => false,
        Expr::SetLocal(_, _) => false,
        Expr::SwapLocal(_, _) => false,
        Expr::Operation(_, _, _) => false,
        Expr::Request(_, _, _) => false,
        Expr::Modify(_, _, _, _, _, _) => false,
        Expr::And(_, _) => false,
        Expr::Or(_, _) => false,
        Expr::Choice(_, _, _, _) => false,
        Expr::Call(_, _) => false,
    }
}

/// Whether it is `NULL` as it is written, parentheses aside.
pub(crate) fn is_null_word(x: &Operand) -> bool
    ensures { result ≡ is_null_word x.now.standing (expression_of x.now.tree) }
{
    match x.standing {
        Standing::Null => is_constant(x.tree.get()),
        _ => false,
    }
}

/// What is wrong where a call at a place has another number of arguments than it takes.
pub(crate) fn miscounted(at: u32, taken: usize, count: usize) -> Option<Fault>
    ensures { result ≡ miscounted at taken count }
{
    if taken == count {
        None
    } else {
        Some(Fault {
            at,
            kind: Kind::BadType,
        })
    }
}

/// An answer, beside what is wrong in any case.
pub(crate) fn despite(always: Option<Fault>, answer: Answer) -> Answer
    ensures { result ≡ despite always answer }
{
    let Some(fault) = always else {
        return answer;
    };
    match answer {
        Ok(x) => {
            drop(x);
            Err(Refusal::Fault(fault))
        }
        Err(e) => Err(sooner(Refusal::Fault(fault), e)),
    }
}
