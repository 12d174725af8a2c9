ghost use Rattle.kt_grammar.specs.Laws.{ExprStands, ExprFaultStands, ExprGoesOn};

/// An expression that is read stands there: the symbols are those that spell it, none too deep, and the rest.
pub fn expr_stands_law()
    ensures { ExprStands }
{}

/// Where no expression is read, what stands before the place of the fault begins one, none of it too deep; where the fault is depth, it
/// goes on with the symbol there, which is.
pub fn expr_fault_law()
    ensures { ExprFaultStands }
{}

/// A symbol that an expression may begin with begins one, at any depth.
pub fn expr_goes_on_law()
    ensures { ExprGoesOn }
{}
