//! What C files and rule files share: symbols, expressions, and reading them from the left.
#![tactic(auto)]

mod cursor;
mod fault;
mod head;
mod inner;
mod keyword;
mod laws;
mod levels;
mod local;
mod node;
mod operator;
mod place;
mod postfix;
mod sign;
mod sign_of;
mod spelled;
mod stands;
mod stands_for;
mod symbol;
mod syntax_fault;
mod tree;
mod types;
mod unary;
mod word;

pub use cursor::{begins_sign, behind, behind_first, count_sign, name};
pub use fault::{Fault, beside};
pub use inner::{behind_else, condition, deep_expr, refusal};
pub use keyword::{Keyword, RuleWord};
pub use laws::{expr_laws, symbols_law};
pub use levels::{begins_expr, expr, stuck};
pub use local::expr_local_law;
pub use operator::{AssignOperator, BinaryOperator, Dialect, PrefixOperator, StepOperator};
pub use place::told;
pub use sign::Sign;
pub use sign_of::{assign_of, binary_of, precedence, prefix_of, step_of};
pub use spelled::is_identifier;
pub use stands::{expr_fault_law, expr_goes_on_law, expr_stands_law};
pub use stands_for::symbols;
pub use symbol::Symbol;
pub use syntax_fault::SyntaxFault;
pub use tree::{Base, Expr, Fresh, Name, TypeName};
pub use types::{bare_base, base, begins_base, type_name};
pub use word::Word;
