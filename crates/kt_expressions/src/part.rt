//! Parts of expressions, as what they are used as.

ghost use Rattle.kt_operands.specs.Views.{environment_of};
ghost use Rattle.kt_expressions.specs.Formed.{OfPart};

use kt_operands::environment::Environment;
use kt_operators::forms::Answer;
use kt_operators::part::used;
use kt_typing::Use;

/// An expression that was judged, as a part that is used so.
pub(crate) fn part_of(env: &Environment<'_>, to: Use, x: Answer) -> Answer
    ensures { OfPart (environment_of env.now) to x result }
{
    match x {
        Ok(y) => used(env, to, y),
        Err(e) => Err(e),
    }
}
