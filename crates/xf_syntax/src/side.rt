//! Targets and sides of rules.

ghost use Rattle.std.specs.Prelude.{◌≡◌, ◌<◌, ◌≤◌, length, IfOk};
ghost use Rattle.kt_grammar.specs.Cursor.{Gives};
ghost use Rattle.xf_syntax.specs.Reading.{field_behind, field_at, target_at, named_behind, side_at, struct_name_at};

use super::tree::{Side, StructName, Target};
use kt_grammar::{
    Fault, Keyword, Name, Sign, Symbol, begins_sign, behind, behind_first, beside, name,
};

/// A field behind the name of its struct.
#[tactic(auto, unfolding(crate::specs::Reading::field_behind))]
pub(crate) fn field_behind(of: StructName, symbols: &[Symbol]) -> Result<(Target, &[Symbol]), Fault>
    ensures read { Gives (λ x. (x.0, x.1.now)) result (field_behind of symbols.now) }
    ensures shorter { IfOk result (λ x. length x.1.now < length symbols.now) }
{
    let (of, rest) = beside(of, behind(Sign::Dot, symbols))?;
    let (of, (field, rest)) = beside(of, name(rest))?;
    Ok((Target::Field(of, field), rest))
}

/// A field behind `struct`.
#[tactic(auto, unfolding(crate::specs::Reading::field_at))]
fn field(at: u32, symbols: &[Symbol]) -> Result<(Target, &[Symbol]), Fault>
    ensures read { Gives (λ x. (x.0, x.1.now)) result (field_at at symbols.now) }
    ensures shorter { IfOk result (λ x. length x.1.now < length symbols.now) }
{
    let (name, rest) = name(symbols)?;
    field_behind(StructName { at, name }, rest)
}

/// A global or a field.
#[tactic(auto, unfolding(crate::specs::Reading::target_at))]
pub(crate) fn target(symbols: &[Symbol]) -> Result<(Target, &[Symbol]), Fault>
    ensures read { Gives (λ x. (x.0, x.1.now)) result (target_at symbols.now) }
    ensures shorter { IfOk result (λ x. length x.1.now < length symbols.now) }
{
    match symbols {
        [Symbol::Keyword(at, Keyword::Struct), rest @ ..] => field(*at, rest),
        _ => {
            let (name, rest) = name(symbols)?;
            Ok((Target::Global(name), rest))
        }
    }
}

/// A global, or a local where two colons stand behind its function's name.
#[tactic(auto, unfolding(crate::specs::Reading::named_behind))]
pub(crate) fn named_behind(first: Name, symbols: &[Symbol]) -> Result<(Side, &[Symbol]), Fault>
    ensures read { Gives (λ x. (x.0, x.1.now)) result (named_behind first symbols.now) }
    ensures shorter { IfOk result (λ x. length x.1.now ≤ length symbols.now) }
{
    if begins_sign(Sign::DoubleColon, symbols) {
        let (first, (local, rest)) = beside(first, name(behind_first(symbols)))?;
        Ok((Side::Local(first, local), rest))
    } else {
        Ok((Side::Target(Target::Global(first)), symbols))
    }
}

/// What stands behind an arrow.
#[tactic(auto, unfolding(crate::specs::Reading::side_at))]
pub(crate) fn side(symbols: &[Symbol]) -> Result<(Side, &[Symbol]), Fault>
    ensures read { Gives (λ x. (x.0, x.1.now)) result (side_at symbols.now) }
    ensures shorter { IfOk result (λ x. length x.1.now < length symbols.now) }
{
    match symbols {
        [Symbol::Keyword(at, Keyword::Struct), rest @ ..] => {
            let (field, rest) = field(*at, rest)?;
            Ok((Side::Target(field), rest))
        }
        _ => {
            let (name, rest) = name(symbols)?;
            named_behind(name, rest)
        }
    }
}

/// `struct` and a name.
#[tactic(auto, unfolding(crate::specs::Reading::struct_name_at))]
pub(crate) fn struct_name(symbols: &[Symbol]) -> Result<(StructName, &[Symbol]), Fault>
    ensures read { Gives (λ x. (x.0, x.1.now)) result (struct_name_at symbols.now) }
    ensures shorter { IfOk result (λ x. length x.1.now < length symbols.now) }
{
    match symbols {
        [Symbol::Keyword(at, Keyword::Struct), rest @ ..] => {
            let (name, rest) = name(rest)?;
            Ok((StructName { at: *at, name }, rest))
        }
        _ => Err(Fault::Syntax(symbols.len())),
    }
}
