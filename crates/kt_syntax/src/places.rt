ghost use Rattle.kt_syntax.specs.FaultPlaces.{SyntaxIsThere, DepthIsThere};
ghost use Rattle.kt_syntax.specs.Local.{FileIsLocal};

use super::laws::file_laws;
use super::stands::file_fault_law;
use kt_grammar::expr_local_law;

/// A symbol that is refused is so whatever stands behind it.
fn file_local_law()
    ensures { FileIsLocal }
{
    expr_local_law();
}

/// Where no file is read, the fault stands at its place.
pub fn file_places_law()
    ensures syntax { SyntaxIsThere }
    ensures depth { DepthIsThere }
{
    file_laws();
    file_fault_law();
    file_local_law();
}
