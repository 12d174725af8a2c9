//! Acts made of their parts.

ghost use Rattle.std.specs.Prelude.{◌≡◌, map};
ghost use Rattle.kt_grammar.specs.Tree.{term_of};
ghost use Rattle.xf_syntax.specs.Tree.{action_of, actions_of, Compound, Conditional, Alternative};

use super::tree::Act;
use kt_grammar::Expr;
use sqlite_items::{Boxed, Items};

#[tactic(auto, using(crate::proofs::Nodes::nodes))]
pub(crate) fn compound(acts: Items<Act>) -> Act
    ensures { action_of result ≡ Compound (actions_of (map action_of acts)) }
{
    Act::Block(acts)
}

#[tactic(auto, using(crate::proofs::Nodes::nodes))]
pub(crate) fn conditional(test: Expr, body: Boxed<Act>) -> Act
    ensures { action_of result ≡ Conditional (term_of test) (action_of body) }
{
    Act::If(test, body)
}

#[tactic(auto, using(crate::proofs::Nodes::nodes))]
pub(crate) fn alternative(test: Expr, body: Boxed<Act>, other: Boxed<Act>) -> Act
    ensures { action_of result ≡ Alternative (term_of test) (action_of body) (action_of other) }
{
    Act::IfElse(test, body, other)
}
