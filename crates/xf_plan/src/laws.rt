//! Laws of the definitions, each the contract of a function that does nothing.

ghost use Rattle.xf_plan.specs.Reached.{StepsArePaths};
ghost use Rattle.xf_plan.specs.Rows.{ConversionRow, DeadRow, ExtentRow, FieldExtentRow, FreshRow, GlobalRow, InteriorRow, RingRow, RuleRow};

/// What is reached by steps from the roots, as many as there are heap numbers, is what paths lead to: a root place leads to
/// an object where its pre-value is faultless and points to it, and so does a place of the image of an object that is
/// reached. Live heap objects have numbers below the next one.
pub fn reached_law()
    ensures { StepsArePaths }
{}

/// Worked updates give what was worked out by hand.
pub fn rows_law()
    ensures conversion { ConversionRow }
    ensures ring { RingRow }
    ensures interior { InteriorRow }
    ensures extent { ExtentRow }
    ensures field_extent { FieldExtentRow }
    ensures rule { RuleRow }
    ensures global { GlobalRow }
    ensures dead { DeadRow }
    ensures fresh { FreshRow }
{}
