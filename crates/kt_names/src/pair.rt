//! Two operands that are judged both.

ghost use Rattle.kt_names.specs.Checked.{both};
ghost use Rattle.kt_names.specs.Judges.{Judges};
ghost use Rattle.kt_names.specs.Views.{environment_of, operand_of, values_of};
ghost use Rattle.kt_names.specs.Operands.{value, scalar, integer, pointer};

use crate::environment::Environment;
use crate::fault::CheckFault;
use crate::judged::both;
use crate::operand::{Operand, Value};

/// Two operands and where they begin.
#[derive(Drop)]
pub struct Pair {
    pub left: Operand,
    pub at: u32,
    pub right: Operand,
    pub other: u32,
}

impl Pair {
    /// The two values, in an expression at `up`.
    #[tactic(auto, using(crate::proofs::Parts::parts))]
    pub fn values(self, env: &Environment<'_>, up: u32) -> Result<(Value, Value), CheckFault>
        ensures { Judges values_of result (both (value (environment_of env.now) self.at up (operand_of self.left)) (value (environment_of env.now) self.other up (operand_of self.right))) }
    {
        both(
            self.left.value(env, self.at, up),
            self.right.value(env, self.other, up),
        )
    }

    /// The two values, as conditions take them.
    #[tactic(auto, using(crate::proofs::Parts::parts))]
    pub fn scalars(self, env: &Environment<'_>, up: u32) -> Result<(Value, Value), CheckFault>
        ensures { Judges values_of result (both (scalar (environment_of env.now) self.at up (operand_of self.left)) (scalar (environment_of env.now) self.other up (operand_of self.right))) }
    {
        both(
            self.left.scalar(env, self.at, up),
            self.right.scalar(env, self.other, up),
        )
    }

    /// A pointer and an integer.
    #[tactic(auto, using(crate::proofs::Parts::parts))]
    pub fn indexed(self, env: &Environment<'_>, up: u32) -> Result<(Value, Value), CheckFault>
        ensures { Judges values_of result (both (pointer (environment_of env.now) self.at up (operand_of self.left)) (integer (environment_of env.now) self.other up (operand_of self.right))) }
    {
        both(
            self.left.pointer(env, self.at, up),
            self.right.integer(env, self.other, up),
        )
    }
}
