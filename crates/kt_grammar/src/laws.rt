ghost use Rattle.kt_grammar.specs.Known.{TokensAreKnown};
ghost use Rattle.kt_grammar.specs.Laws.{ExprIsReadBack, ExprBegins};

/// An expression that is spelled is read back, unless a token of it is too deep; what it is spelled by begins an expression.
pub fn expr_laws()
    ensures read_back { ExprIsReadBack }
    ensures begins { ExprBegins }
{}

/// No token of a file becomes `Other`: its spelling is one of its kind.
pub fn symbols_law()
    ensures { TokensAreKnown }
{
    kt_lex::cut_law();
}
