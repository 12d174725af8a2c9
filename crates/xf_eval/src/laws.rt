//! Laws of pre-values, each the contract of a function that does nothing.
ghost use Rattle.xf_eval.specs.ByNumber.{CellsByNumber, GlobalsByNumber, LocalsByNumber};

/// Pre-values over a memory whose heap names are addresses are those over the memory by heap number, trap for trap, where
/// memory and local hold only heap names that were given out.
pub fn by_number_law()
    ensures cells { CellsByNumber }
    ensures globals { GlobalsByNumber }
    ensures locals { LocalsByNumber }
{}
