//! The code of expressions: its definition, what it is for code to do the acts of an expression, and the law that the
//! code of a typed expression does, which stand in `specs/`; and the call that adds the code of an expression.
#![tactic(auto)]

mod copies;
mod emit;
mod generate;
mod laws;
mod resolve;

pub use emit::{emit_expr, put};
pub use generate::gen_expr;
pub use laws::{exact_law, expression_law};
