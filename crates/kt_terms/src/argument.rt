//! Arguments of calls.

ghost use Rattle.kt_tree.specs.Tree.{expression_of};
ghost use Rattle.kt_names.specs.Judges.{JudgesAfter};
ghost use Rattle.kt_names.specs.Views.{environment_of, operand_of, value_of};
ghost use Rattle.kt_names.specs.Operands.{scalar, integer, pointer, convert};

use kt_names::ctype::CType;
use kt_names::environment::Environment;
use kt_names::fault::CheckFault;
use kt_names::format::Conversion;
use kt_names::operand::{Operand, Value};
use kt_tree::Expr;

/// An argument, and where it begins.
#[derive(Drop)]
pub(crate) struct Argument {
    pub at: u32,
    pub typed: Result<Operand, CheckFault>,
}

/// What a call wants of an argument: a value of a parameter's type, or one for a piece of a format.
#[derive(Clone, Copy)]
pub(crate) enum Wanted {
    Parameter(CType),
    Piece(Conversion),
}

impl Argument {
    /// Lets the argument go.
    pub(crate) fn let_go(self) {
        drop(self)
    }

    /// Its value as a condition takes it, in a call at `up`.
    #[tactic(auto, using(kt_names::proofs::Parts::parts))]
    pub(crate) fn scalar(self, env: &Environment<'_>, up: u32) -> Result<Value, CheckFault>
        ensures { JudgesAfter operand_of self.typed value_of result (scalar (environment_of env.now) self.at up) }
    {
        let Argument { at, typed } = self;
        match typed {
            Ok(operand) => operand.scalar(env, at, up),
            Err(fault) => Err(fault),
        }
    }

    /// The value of an integer.
    #[tactic(auto, using(kt_names::proofs::Parts::parts))]
    pub(crate) fn integer(self, env: &Environment<'_>, up: u32) -> Result<Value, CheckFault>
        ensures { JudgesAfter operand_of self.typed value_of result (integer (environment_of env.now) self.at up) }
    {
        let Argument { at, typed } = self;
        match typed {
            Ok(operand) => operand.integer(env, at, up),
            Err(fault) => Err(fault),
        }
    }

    /// The value of a pointer.
    #[tactic(auto, using(kt_names::proofs::Parts::parts))]
    pub(crate) fn pointer(self, env: &Environment<'_>, up: u32) -> Result<Value, CheckFault>
        ensures { JudgesAfter operand_of self.typed value_of result (pointer (environment_of env.now) self.at up) }
    {
        let Argument { at, typed } = self;
        match typed {
            Ok(operand) => operand.pointer(env, at, up),
            Err(fault) => Err(fault),
        }
    }

    /// What it is as a value of a type.
    #[tactic(auto, using(kt_names::proofs::Parts::parts))]
    pub(crate) fn convert(
        self,
        env: &Environment<'_>,
        t: CType,
        up: u32,
    ) -> Result<Expr, CheckFault>
        ensures { JudgesAfter operand_of self.typed expression_of result (convert (environment_of env.now) t self.at up) }
    {
        let Argument { at, typed } = self;
        match typed {
            Ok(operand) => operand.convert(env, t, at, up),
            Err(fault) => Err(fault),
        }
    }
}
