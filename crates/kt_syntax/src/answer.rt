ghost use Rattle.kt_syntax.specs.Answer.{HasAnswer, OneAnswer, DepthsAgree};

use super::laws::file_laws;
use super::places::file_places_law;
use super::stands::{file_fault_law, file_stands_law};

/// A token list has one tree, or its one fault at its one place.
pub fn file_answer_law()
    ensures some { HasAnswer }
    ensures one { OneAnswer }
{
    file_laws();
    file_stands_law();
    file_fault_law();
    file_places_law();
}

/// Files that begin with the same tokens have them alike within a limit of depth.
pub fn file_depth_law()
    ensures { DepthsAgree }
{
    file_laws();
    file_places_law();
}
