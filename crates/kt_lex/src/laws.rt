ghost use Rattle.kt_lex.specs.Cover.{TokensAreCut, CutsAreTokens, FaultsAreThere, StopsAreFaults, LongestSignIsTaken};

/// A file has tokens exactly where it is their spellings with gaps between them, joined; each spelling is one of its kind,
/// and no more of what follows belongs to it.
pub fn cut_law()
    ensures cut { TokensAreCut }
    ensures exact { CutsAreTokens }
{}

/// A file has a fault exactly where it is spellings with gaps between them up to there, and what begins there is faulty as it says.
pub fn fault_law()
    ensures there { FaultsAreThere }
    ensures exact { StopsAreFaults }
{}

/// Of the signs that stand at the front of a rest, the longest is taken.
pub fn longest_sign_law()
    ensures { LongestSignIsTaken }
{}
