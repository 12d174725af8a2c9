//! What is read of rule files is what is spelled, and what is not read breaks off where it is told.

ghost use Rattle.kt_grammar.specs.Texts.{OneTree, HasAnswer, OneAnswer, DepthsAgree};
ghost use Rattle.kt_grammar.specs.TextLaws.{IsReadBack, IsRead, TextStands, TextFaultStands, TextIsLocal, SyntaxIsThere, DepthIsThere};
ghost use Rattle.xf_syntax.specs.Spelling.{rules};
ghost use Rattle.xf_syntax.specs.Reading.{rules_at};

use kt_grammar::{expr_fault_law, expr_goes_on_law, expr_laws, expr_local_law, expr_stands_law};

/// A rule file that is spelled is read back, unless a token of it is too deep; within the limit it is read, and it has one tree.
pub fn rules_laws()
    ensures read_back { IsReadBack rules rules_at }
    ensures read { IsRead rules rules_at }
    ensures one_tree { OneTree rules }
{
    expr_laws();
}

/// A rule file that is read is one, to its end: its symbols are those that spell it, none too deep.
pub fn rules_stands_law()
    ensures { TextStands rules rules_at }
{
    expr_stands_law();
}

/// Where no rule file is read, what stands before the place of the fault begins one, none of it too deep; where the fault is depth, one
/// goes on there with the symbol there, which is too deep in it.
pub fn rules_fault_law()
    ensures { TextFaultStands rules rules_at }
{
    expr_stands_law();
    expr_fault_law();
    expr_goes_on_law();
}

/// A symbol that is refused is so whatever stands behind it.
fn rules_local_law()
    ensures { TextIsLocal rules_at }
{
    expr_local_law();
}

/// Where no rule file is read, the fault stands at its place.
pub fn rules_places_law()
    ensures syntax { SyntaxIsThere rules rules_at }
    ensures depth { DepthIsThere rules rules_at }
{
    rules_laws();
    rules_fault_law();
    rules_local_law();
}

/// A token list has one tree, or its one fault at its one place.
pub fn rules_answer_law()
    ensures some { HasAnswer rules }
    ensures one { OneAnswer rules }
{
    rules_laws();
    rules_stands_law();
    rules_fault_law();
    rules_places_law();
}

/// Rule files that begin with the same tokens have them alike within a limit of depth.
pub fn rules_depth_law()
    ensures { DepthsAgree rules }
{
    rules_laws();
    rules_places_law();
}
