ghost use Rattle.kt_grammar.specs.Laws.{ExprIsLocal};

/// Two texts with a common front are read as expressions alike, up to the end of that front.
pub fn expr_local_law()
    ensures { ExprIsLocal }
{}
