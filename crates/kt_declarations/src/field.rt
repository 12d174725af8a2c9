//! The fields of a struct, and where the names of them stand.

ghost use Rattle.std.specs.Prelude.{◌≡◌, ℕ, List, [], ◌∷◌, ◌++◌, map, length, ◌&&◌, true, Some, IfOk, OnOk};
ghost use Rattle.std.specs.Str.{bytes_eq};
ghost use Rattle.kt_program.specs.Views.{Field, all_fields, fields_of_base, is_integer_base, is_count_field};
ghost use Rattle.kt_declarations.specs.Fields.{field_of, known, told, places, AreKnown, or_here};

use crate::base::stars_of;
use indexmap::IndexMap;
use kt_grammar::Base;
use kt_syntax::{Declarator, Fields};
use std::alloc::{AllocError, Global};

/// A field with the base of its declaration.
#[derive(Clone, Copy)]
pub struct FieldOf<'f> {
    pub base: &'f Base,
    pub declarator: &'f Declarator,
}

/// The places of the first field of a name, and of the first that counts elements.
#[derive(Clone, Copy)]
pub struct Known {
    pub first: usize,
    pub count: Option<usize>,
}

/// The names of the fields of a struct.
#[derive(Drop)]
pub struct FieldNames {
    pub known: IndexMap<Vec<u8>, Known>,
}

// The fields of one base, behind others.
fn push_fields<'f>(
    all: &mut Vec<FieldOf<'f>>,
    base: &'f Base,
    declarators: &'f [Declarator],
) -> Result<(), AllocError>
    ensures { OnOk result (map field_of all.new.items ≡ map field_of all.old.items ++ fields_of_base base.now declarators.now) }
{
    for declarator in declarators {
        all.push(FieldOf { base, declarator })?;
    }
    Ok(())
}

/// All fields of a struct.
pub fn all_fields<'f>(alloc: Global, fields: &'f [Fields]) -> Result<Vec<FieldOf<'f>>, AllocError>
    ensures { IfOk result (λ all. map field_of all.items ≡ all_fields fields.now) }
{
    let mut all = Vec::new(alloc);
    for some in fields {
        push_fields(&mut all, &some.base, some.declarators.as_slice())?;
    }
    Ok(all)
}

fn is_integer_base(base: &Base) -> bool
    ensures { result ≡ is_integer_base base.now }
{
    match base {
        Base::Char => true,
        Base::Int => true,
        Base::Long => true,
        Base::Mutex => false,
        Base::Struct(_) => false,
    }
}

// Whether it is an integer field that is no array.
fn is_count_field(x: FieldOf<'_>) -> bool
    ensures { (n : List ℕ) → is_count_field n (field_of x.entry) ≡ (result && bytes_eq x.entry.declarator.now.name.word n) }
{
    is_integer_base(x.base) && stars_of(&x.declarator.pointer) == 0 && x.declarator.count.is_none()
}

// What is known of a name behind a field of that name at a place.
fn known_behind(before: Option<Known>, place: usize, counts: bool) -> Known
    ensures { told (Some result) ≡ (or_here (told before).0 true place, or_here (told before).1 counts place) }
{
    let here = if counts { Some(place) } else { None };
    match before {
        None => Known {
            first: place,
            count: here,
        },
        Some(k) => Known {
            first: k.first,
            count: if k.count.is_some() { k.count } else { here },
        },
    }
}

impl FieldNames {
    // The names with that of one more field, of the place behind the others.
    fn add(&mut self, alloc: Global, place: usize, x: FieldOf<'_>) -> Result<(), AllocError>
        ensures { (fields : List Field) → AreKnown self.old fields → length fields ≡ place → OnOk result (AreKnown self.new (fields ++ field_of x.entry ∷ [])) }
    {
        let name = x.declarator.name.word.as_bytes();
        let before = self.known_of(name);
        let key = Vec::from_slice(alloc, name)?;
        let behind = known_behind(before, place, is_count_field(x));
        self.known.insert(key, behind)?;
        Ok(())
    }

    fn known_of(&self, name: &[u8]) -> Option<Known>
        ensures { result ≡ known self.now name.now }
    {
        self.known.get(name).copied()
    }

    /// The names of these fields.
    pub fn new(alloc: Global, fields: &[FieldOf<'_>]) -> Result<FieldNames, AllocError>
        ensures { IfOk result (λ a. AreKnown a (map field_of fields.now)) }
    {
        let mut names = FieldNames {
            known: IndexMap::new(alloc),
        };
        for (place, x) in fields.iter().enumerate() {
            names.add(alloc, place, *x)?;
        }
        Ok(names)
    }

    /// The place of the first field of a name.
    pub fn first(&self, name: &[u8]) -> Option<usize>
        ensures { result ≡ (told (known self.now name.now)).0 }
    {
        match self.known_of(name) {
            None => None,
            Some(k) => Some(k.first),
        }
    }

    /// The place of the first integer field of a name that is no array.
    pub fn count(&self, name: &[u8]) -> Option<usize>
        ensures { result ≡ (told (known self.now name.now)).1 }
    {
        match self.known_of(name) {
            None => None,
            Some(k) => k.count,
        }
    }
}
