//! What a part of an expression is used as.

ghost use Rattle.std.specs.Prelude.{◌≡◌};
ghost use Rattle.kt_typing.specs.Rules.{is_usable, lacking, wrong};
ghost use Rattle.kt_operands.specs.Judged.{Follows};
ghost use Rattle.kt_operators.specs.Judged.{used};
ghost use Rattle.kt_operands.specs.Views.{environment_of, scope_of, operand_of};

use kt_operands::environment::Environment;
use kt_operands::operand::{Operand, bad_type};
use kt_operands::refusal::Refusal;
use kt_typing::{Fault, Kind, Standing, Use};

// What stands so may be used so.
fn is_usable(to: Use, standing: Standing) -> bool
    ensures { result ≡ is_usable to standing }
{
    match standing {
        Standing::Whole => to == Use::Whole,
        Standing::Elements => to == Use::Indexed,
        Standing::Size(_) => matches!(to, Use::Factor | Use::Size | Use::Count),
        Standing::Product(_) => to == Use::Count,
        Standing::Value => true,
        Standing::Zero => true,
        Standing::Null => true,
        Standing::Local(_) => true,
        Standing::Cell => true,
        Standing::Nothing => true,
        Standing::Entry(_) => true,
    }
}

// What a size lacks: it is that of a complete type.
fn lacking(env: &Environment<'_>, standing: Standing, ty: u32) -> Option<Fault>
    ensures { result ≡ lacking (scope_of env.now) standing ty }
{
    match standing {
        Standing::Size(at) => {
            if env.is_complete(ty) {
                None
            } else {
                Some(Fault {
                    at,
                    kind: Kind::Incomplete,
                })
            }
        }
        _ => None,
    }
}

/// The operand, unless it is used as what it is not.
pub fn used(env: &Environment<'_>, to: Use, x: Operand) -> Result<Operand, Refusal>
    ensures { Follows operand_of (used (wrong (environment_of env.now) to (operand_of x)) (operand_of x)) result }
{
    if !is_usable(to, x.standing) {
        let at = x.at;
        drop(x);
        return Err(bad_type(at));
    }
    match lacking(env, x.standing, x.ty) {
        Some(fault) => {
            drop(x);
            Err(Refusal::Fault(fault))
        }
        None => Ok(x),
    }
}
