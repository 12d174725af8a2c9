//! From where a new cell has its value.
ghost use Rattle.std.specs.Prelude.{◌≡◌, ◌+◌, ◌≤◌, ◌<◌, ◌^◌};
ghost use Rattle.xf_plan.specs.Sources.{moved_by};
ghost use Rattle.xf_eval.specs.Parts.{source_of, AtMost, StaysWithin};
ghost use Rattle.std.specs.Option.{option_map};

use sqlite_items::Items;
use xf_plan::Action;

/// From where a new cell has its value. Places of old cells count from the start of the old thing.
#[derive(Clone, Copy)]
pub(crate) enum Found<'p> {
    /// An old cell, by the default conversion.
    Cell(u32),
    /// Zero, null or free.
    Zero,
    /// A body, with the places of `$in` and of `$base`, where there are such.
    Body(Option<u32>, Option<u32>, &'p Items<Action>),
}

impl<'p> Found<'p> {
    /// The same, where the old thing stands so many cells behind the start of a larger one.
    pub(crate) fn moved_by(self, cells: u32, most: u32) -> Found<'p>
        requires within { StaysWithin most self }
        requires room { cells + most < 2 ^ 32 }
        ensures moved { source_of result ≡ moved_by cells (source_of self.entry) }
        ensures within { StaysWithin (cells + most) result }
    {
        match self {
            Found::Cell(place) => Found::Cell(cells + place),
            Found::Zero => Found::Zero,
            Found::Body(source, base, body) => {
                Found::Body(
                    place_moved(source, cells, most),
                    place_moved(base, cells, most),
                    body,
                )
            }
        }
    }
}

// A place, so many cells on.
fn place_moved(place: Option<u32>, cells: u32, most: u32) -> Option<u32>
    requires within { AtMost most place }
    requires room { cells + most < 2 ^ 32 }
    ensures moved { result ≡ option_map (λ i. cells + i) place }
    ensures within { AtMost (cells + most) result }
{
    match place {
        Some(place) => Some(cells + place),
        None => None,
    }
}
