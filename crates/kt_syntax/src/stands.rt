ghost use Rattle.kt_syntax.specs.StandLaws.{FileStands, FileFaultStands};

use kt_grammar::{expr_fault_law, expr_goes_on_law, expr_stands_law};

/// A file that is read is one, to its end: its symbols are those that spell it, none too deep.
pub fn file_stands_law()
    ensures { FileStands }
{
    expr_stands_law();
}

/// Where no file is read, what stands before the place of the fault begins one, none of it too deep; where the fault is depth, one goes on
/// there with the symbol there, which is too deep in it.
pub fn file_fault_law()
    ensures { FileFaultStands }
{
    expr_stands_law();
    expr_fault_law();
    expr_goes_on_law();
}
