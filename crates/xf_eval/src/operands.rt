//! The values of operands.
ghost use Rattle.std.specs.Prelude.{◌≡◌};
ghost use Rattle.xf_eval.specs.Operands.{with_one};

use kt_mem::Value;

/// The values of operands, as far as rule code takes any.
#[derive(Clone, Copy)]
pub(crate) enum Operands {
    Empty,
    One(Value),
    Two(Value, Value),
    /// Three or more.
    More,
}

impl Operands {
    /// These, and one behind them.
    pub(crate) fn with(self, v: Value) -> Operands
        ensures { result ≡ with_one self v }
    {
        match self {
            Operands::Empty => Operands::One(v),
            Operands::One(a) => Operands::Two(a, v),
            Operands::Two(_, _) => Operands::More,
            Operands::More => Operands::More,
        }
    }
}
