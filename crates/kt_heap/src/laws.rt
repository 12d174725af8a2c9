//! Laws of memory by heap number: calls that do nothing, and ensure what holds of the definitions.
ghost use Rattle.kt_heap.specs.ByNumber.{StartsByNumber, LoadsByNumber, StoresByNumber, ReleasesByNumber, LocksByNumber, UnlocksByNumber, InitsByNumber, WaitsByNumber, AllocsByNumber, GrowsByNumber, LooksByNumber, CarriesNumber, LoadsGiven, StoresGiven, LocksGiven, UnlocksGiven, InitsGiven, ReleasesGiven, AllocsGiven, GrowsGiven};

/// Each act on a memory whose heap names are addresses is the act on the memory by heap number, answer for answer: of
/// pointers that were given out.
pub fn by_number_law()
    ensures starts { StartsByNumber }
    ensures load { LoadsByNumber }
    ensures store { StoresByNumber }
    ensures release { ReleasesByNumber }
    ensures lock { LocksByNumber }
    ensures unlock { UnlocksByNumber }
    ensures init { InitsByNumber }
    ensures waits { WaitsByNumber }
    ensures alloc { AllocsByNumber }
    ensures grows { GrowsByNumber }
    ensures looks { LooksByNumber }
    ensures own { CarriesNumber }
{}

/// A memory that holds only heap names that were given out goes on doing so, and loads give no other.
pub fn given_law()
    ensures load { LoadsGiven }
    ensures store { StoresGiven }
    ensures release { ReleasesGiven }
    ensures lock { LocksGiven }
    ensures unlock { UnlocksGiven }
    ensures init { InitsGiven }
    ensures alloc { AllocsGiven }
    ensures grows { GrowsGiven }
{}
