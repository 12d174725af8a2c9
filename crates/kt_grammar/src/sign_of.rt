//! Which operator a sign is, and how tightly it binds.

ghost use Rattle.std.specs.Prelude.{◌≡◌, ◌≤◌, ◌<◌};
ghost use Rattle.kt_grammar.specs.Signs.{is_c, same_sign, precedence, prefix_of, step_of, binary_of, assign_of};

use super::operator::{AssignOperator, BinaryOperator, Dialect, PrefixOperator, StepOperator};
use super::sign::Sign;

impl Dialect {
    /// Whether it is of C files.
    pub fn is_c(self) -> bool
        ensures { result ≡ is_c self }
    {
        match self {
            Dialect::C => true,
            Dialect::Rules => false,
        }
    }
}

/// The prefix operator of a sign.
#[tactic(auto, unfolding(crate::specs::Signs::prefix_of))]
pub fn prefix_of(dialect: Dialect, sign: Sign) -> Option<PrefixOperator>
    ensures { result ≡ prefix_of dialect sign }
{
    match (dialect, sign) {
        (_, Sign::Minus) => Some(PrefixOperator::Negate),
        (_, Sign::Not) => Some(PrefixOperator::Not),
        (_, Sign::Star) => Some(PrefixOperator::Dereference),
        (Dialect::C, Sign::And) => Some(PrefixOperator::AddressOf),
        (Dialect::C, Sign::PlusPlus) => Some(PrefixOperator::Increment),
        (Dialect::C, Sign::MinusMinus) => Some(PrefixOperator::Decrement),
        _ => None,
    }
}

/// The postfix operator without operands of a sign.
#[tactic(auto, unfolding(crate::specs::Signs::step_of))]
pub fn step_of(dialect: Dialect, sign: Sign) -> Option<StepOperator>
    ensures { result ≡ step_of dialect sign }
{
    match (dialect, sign) {
        (Dialect::C, Sign::PlusPlus) => Some(StepOperator::Increment),
        (Dialect::C, Sign::MinusMinus) => Some(StepOperator::Decrement),
        _ => None,
    }
}

/// The binary operator of a sign.
#[tactic(auto, unfolding(crate::specs::Signs::binary_of))]
pub fn binary_of(sign: Sign) -> Option<BinaryOperator>
    ensures { result ≡ binary_of sign }
{
    match sign {
        Sign::OrOr => Some(BinaryOperator::Or),
        Sign::AndAnd => Some(BinaryOperator::And),
        Sign::Equal => Some(BinaryOperator::Equal),
        Sign::NotEqual => Some(BinaryOperator::NotEqual),
        Sign::Less => Some(BinaryOperator::Less),
        Sign::Greater => Some(BinaryOperator::Greater),
        Sign::LessEqual => Some(BinaryOperator::LessEqual),
        Sign::GreaterEqual => Some(BinaryOperator::GreaterEqual),
        Sign::Plus => Some(BinaryOperator::Add),
        Sign::Minus => Some(BinaryOperator::Subtract),
        Sign::Star => Some(BinaryOperator::Multiply),
        Sign::Slash => Some(BinaryOperator::Divide),
        Sign::Percent => Some(BinaryOperator::Remainder),
        _ => None,
    }
}

/// The assignment operator of a sign.
#[tactic(auto, unfolding(crate::specs::Signs::assign_of))]
pub fn assign_of(dialect: Dialect, sign: Sign) -> Option<AssignOperator>
    ensures { result ≡ assign_of dialect sign }
{
    match (dialect, sign) {
        (Dialect::C, Sign::Assign) => Some(AssignOperator::Assign),
        (Dialect::C, Sign::PlusAssign) => Some(AssignOperator::Add),
        (Dialect::C, Sign::MinusAssign) => Some(AssignOperator::Subtract),
        (Dialect::C, Sign::StarAssign) => Some(AssignOperator::Multiply),
        (Dialect::C, Sign::SlashAssign) => Some(AssignOperator::Divide),
        (Dialect::C, Sign::PercentAssign) => Some(AssignOperator::Remainder),
        _ => None,
    }
}

/// How tightly a binary operator binds, from 2 to 7.
pub fn precedence(operator: BinaryOperator) -> u8
    ensures { result ≡ precedence operator }
{
    match operator {
        BinaryOperator::Or => 2,
        BinaryOperator::And => 3,
        BinaryOperator::Equal | BinaryOperator::NotEqual => 4,
        BinaryOperator::Less
        | BinaryOperator::Greater
        | BinaryOperator::LessEqual
        | BinaryOperator::GreaterEqual => 5,
        BinaryOperator::Add | BinaryOperator::Subtract => 6,
        BinaryOperator::Multiply | BinaryOperator::Divide | BinaryOperator::Remainder => 7,
    }
}

/// Whether both are one sign.
pub(crate) fn same_sign(a: Sign, b: Sign) -> bool
    ensures { result ≡ same_sign a b }
{
    a == b
}
