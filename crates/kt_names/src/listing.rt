//! The types of a version, as a text names them in its order.

ghost use Rattle.std.specs.Prelude.{◌≡◌, ◌<◌, ◌^◌, length, map, OnOk, IfOk};
ghost use Rattle.kt_types.specs.declared.kinds.Ty.TheVariants as ty;
ghost use Rattle.kt_names.specs.Gathered.{use_of, uses_in};
ghost use Rattle.kt_names.specs.Types.{place_in, place_of_type, scalars, with_type, with_starred, with_use, with_uses};

use crate::ctype::{CType, Root};
use crate::placing::{place_from, place_of_root};
use crate::types::root_of;
use crate::uses::Use;
use indexmap::IndexSet;
use kt_types::Ty;
use std::alloc::{AllocError, Global};

/// The types that a text named so far, each at its place.
#[derive(Drop)]
pub(crate) struct Listing {
    pub types: IndexSet<Ty>,
    ghost few: { length types.keys < 2 ^ 32 },
}

impl Listing {
    /// Adds a type behind the others, where it isn't among them: its place.
    fn add(&mut self, ty: Ty) -> Result<u32, AllocError>
        ensures types { OnOk result (self.new.types.keys ≡ with_type self.old.types.keys ty) }
        ensures place { IfOk result (λ place. place ≡ place_of_type self.new.types.keys ty) }
    {
        if self.types.len() >= u32::MAX as usize {
            return Err(AllocError);
        }
        let added = self.types.insert_full(ty)?;
        Ok(added.0 as u32)
    }

    /// The scalar types.
    fn scalars(alloc: Global) -> Result<Listing, AllocError>
        ensures { IfOk result (λ listing. listing.types.keys ≡ scalars) }
    {
        let mut listing = Listing {
            types: IndexSet::new(alloc),
        };
        listing.add(Ty::Char)?;
        listing.add(Ty::Int)?;
        listing.add(Ty::Long)?;
        listing.add(Ty::Mutex)?;
        Ok(listing)
    }

    /// Adds a type and all that it points to.
    fn add_starred(&mut self, root: Root, stars: usize) -> Result<(), AllocError>
        ensures { OnOk result (self.new.types.keys ≡ with_starred self.old.types.keys root stars) }
    {
        let mut place = self.add(root.table_type())?;
        for _ in 0..stars {
            place = self.add(Ty::Ptr(place))?;
        }
        Ok(())
    }

    /// Adds an array of a type that is there.
    fn add_array(&mut self, element: CType, count: u32) -> Result<(), AllocError>
        ensures { OnOk result (self.new.types.keys ≡ with_type self.old.types.keys (ty.Array (place_in self.old.types.keys element) count)) }
    {
        let place = place_from(
            &self.types,
            element,
            place_of_root(&self.types, element.root),
        );
        self.add(Ty::Array(place, count))?;
        Ok(())
    }

    /// Adds the type that a text names.
    fn add_use(&mut self, structs: &IndexSet<Vec<u8>>, named: Use<'_>) -> Result<(), AllocError>
        requires { length structs.now.keys < 2 ^ 32 }
        ensures { OnOk result (self.new.types.keys ≡ with_use (map (λ n. n.items) structs.now.keys) self.old.types.keys (use_of named.entry)) }
    {
        match named {
            Use::Text => self.add_starred(Root::Char, 1),
            Use::Starred(base, stars) => self.add_starred(root_of(structs, base), stars),
            Use::Arrayed(base, stars, count) => {
                let root = root_of(structs, base);
                self.add_array(CType { root, stars }, count)
            }
        }
    }

    /// The scalar types, and then those that a text names.
    pub(crate) fn of_uses(
        alloc: Global,
        structs: &IndexSet<Vec<u8>>,
        uses: &[Use<'_>],
    ) -> Result<Listing, AllocError>
        requires { length structs.now.keys < 2 ^ 32 }
        ensures { IfOk result (λ listing. listing.types.keys ≡ with_uses (map (λ n. n.items) structs.now.keys) scalars (uses_in uses.now)) }
    {
        let mut listing = Listing::scalars(alloc)?;
        for named in uses {
            listing.add_use(structs, *named)?;
        }
        Ok(listing)
    }
}
