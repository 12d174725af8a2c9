ghost use Rattle.kt_syntax.specs.Laws.{FileIsReadBack, FileIsRead};
ghost use Rattle.kt_syntax.specs.File.{OneTree};

/// A C file that is spelled is read back, unless a token of it is too deep; within the limit it is read, and it has one tree.
pub fn file_laws()
    ensures read_back { FileIsReadBack }
    ensures read { FileIsRead }
    ensures one_tree { OneTree }
{
    kt_grammar::expr_laws();
}
