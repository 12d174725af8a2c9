//! Parts that are judged together.

ghost use Rattle.std.specs.Prelude.{◌≡◌};
ghost use Rattle.kt_names.specs.Judges.{both_of};

use crate::fault::CheckFault;

/// Two parts that are judged both: their values, or the earlier fault.
pub fn both<A: Drop, B: Drop>(
    a: Result<A, CheckFault>,
    b: Result<B, CheckFault>,
) -> Result<(A, B), CheckFault>
    ensures { result ≡ both_of a b }
{
    match a {
        Ok(x) => match b {
            Ok(y) => Ok((x, y)),
            Err(g) => Err(g),
        },
        Err(f) => match b {
            Ok(_) => Err(f),
            Err(g) => Err(f.earlier(g)),
        },
    }
}
