//! Laws of arithmetic and of memory: calls that do nothing, and ensure what holds of the definitions
//! that the other calls cite.
ghost use Rattle.kt_mem.specs.Causes.{LoadsAnswer, StoresAnswer, AllocsAnswer, ReleasesAnswer, LocksAnswer, UnlocksAnswer, InitsAnswer, LockHolds, UnlockFrees, InitFrees};
ghost use Rattle.kt_mem.specs.Held.{HeldIsDecided};
ghost use Rattle.kt_mem.specs.Laws.{DividesExactly, ResultsHaveType, LoadsWhatWasStored, StoreKeepsOthers, ReleaseEnds, ReleaseKeepsOthers, AllocTakesNext, AllocKeepsOthers, NumbersNeverReturn, StartsCounted, StaysCounted, StaysSmall, ShapesStay, StaysShaped, StaysNumbered, NumbersAreBelow};

/// `(a / b) * b + a % b` is `a` (ISO/IEC 9899:2011, 6.5.5).
pub fn division_law()
    ensures { DividesExactly }
{}

/// A result of arithmetic is of the type at which it was asked for.
pub fn type_law()
    ensures { ResultsHaveType }
{}

/// A load gives what was stored at the same place, and a store changes no load elsewhere.
pub fn store_law()
    ensures same { LoadsWhatWasStored }
    ensures elsewhere { StoreKeepsOthers }
{}

/// After a release each use of the object is `dead`, and no other object has changed.
pub fn release_law()
    ensures ends { ReleaseEnds }
    ensures others { ReleaseKeepsOthers }
{}

/// An allocation takes the next heap number and changes no other object, and a number whose object is gone never comes
/// again. A live object carries its heap number, which is below the next one.
pub fn heap_number_law()
    ensures taken { AllocTakesNext }
    ensures others { AllocKeepsOthers }
    ensures never_again { NumbersNeverReturn }
    ensures own { StaysNumbered }
    ensures below { NumbersAreBelow }
{}

/// The count of live cells is the sum of the heap objects' cells, and never passes 4,194,304.
pub fn live_cells_law()
    ensures start { StartsCounted }
    ensures sum { StaysCounted }
    ensures limit { StaysSmall }
{}

/// An object has the cells of its element type as often as its count says, and keeps its number, its element type, its
/// count and the types of its cells while it lives.
pub fn shape_law()
    ensures stays { ShapesStay }
    ensures shaped { StaysShaped }
{}

/// Each answer of a load, a store, an allocation, a release, a lock, an unlock and an init, by its cause.
pub fn answers_law()
    ensures load { LoadsAnswer }
    ensures store { StoresAnswer }
    ensures alloc { AllocsAnswer }
    ensures release { ReleasesAnswer }
    ensures lock { LocksAnswer }
    ensures unlock { UnlocksAnswer }
    ensures init { InitsAnswer }
{}

/// A lock is held by one thread, which alone lets it go; a mutex that is held is not made free.
pub fn mutex_law()
    ensures lock { LockHolds }
    ensures unlock { UnlockFrees }
    ensures init { InitFrees }
{}

/// Whether some live mutex is held is decided over the names that can be there.
pub fn held_law()
    ensures { HeldIsDecided }
{}
