//! The fields of a struct, and how much its pointers point to.

ghost use Rattle.std.specs.Prelude.{◌≡◌, Ok, true};
ghost use Rattle.kt_names.specs.Judges.{Judges};
ghost use Rattle.kt_names.specs.Views.{environment_of};
ghost use Rattle.kt_check.specs.Files.{is_integer_base, is_array_count, is_count_field, count_field, extent_inside, pointer_inside, named_view, field_place, field_info, field_decl};
ghost use Rattle.kt_check.specs.Shapes.{one_field, shape_fields, Counts, extent_view, view_inside};
ghost use Rattle.kt_check.specs.Stages.{frame_seen, right};

use crate::counted::elements;
use crate::extent::{extent_outside, global_view, plain_view};
use crate::frame::Frame;
use crate::outside::stars_of;
use crate::shape::{OneField, Shape};
use kt_grammar::{Base, Name};
use kt_names::environment::Environment;
use kt_names::fault::CheckFault;
use kt_names::info::FieldInfo;
use kt_syntax::{Extent, Pointer};
use kt_types::{FieldDecl, Text, Ty, View};

/// Whether the base is an integer.
fn is_integer_base(base: &Base) -> bool
    ensures { result ≡ is_integer_base base.now }
{
    match base {
        Base::Char => true,
        Base::Int => true,
        Base::Long => true,
        Base::Mutex => false,
        Base::Struct(_) => false,
    }
}

/// An integer field that is no array.
pub(crate) fn is_count_field(x: OneField<'_>) -> bool
    ensures { result ≡ is_count_field (one_field x.entry) }
{
    is_integer_base(x.base) && stars_of(&x.declarator.pointer) == 0 && x.declarator.count.is_none()
}

impl Shape<'_> {
    /// The number of the field of this name that may count others.
    pub(crate) fn count_field(&self, name: &[u8]) -> Option<u32>
        requires { Counts self.now }
        ensures { result ≡ count_field (shape_fields self.now) name.now }
    {
        self.counts.get(name).copied()
    }

    /// An extent in a struct.
    fn extent_inside(&self, env: &Environment<'_>, extent: &Extent) -> Result<(), CheckFault>
        requires { Counts self.now }
        ensures { Judges right result (extent_inside (environment_of env.now) (shape_fields self.now) extent.now) }
    {
        match extent {
            Extent::Name(name) => {
                if self.count_field(name.word.as_bytes()).is_some() {
                    return Ok(());
                }
                extent_outside(env, extent)
            }
            Extent::Number(_, _) => extent_outside(env, extent),
        }
    }

    /// The extent of a declarator in a struct.
    pub(crate) fn pointer_inside(
        &self,
        env: &Environment<'_>,
        pointer: &Option<Pointer>,
    ) -> Result<(), CheckFault>
        requires { Counts self.now }
        ensures { Judges right result (pointer_inside (environment_of env.now) (shape_fields self.now) pointer.now) }
    {
        match pointer {
            None => Ok(()),
            Some(pointer) => {
                let at = pointer.stars.at;
                if pointer.stars.count == 0 {
                    return Err(CheckFault::BadType { at });
                }
                match &pointer.extent {
                    None => Ok(()),
                    Some(extent) => self.extent_inside(env, extent),
                }
            }
        }
    }

    /// The view of what a name in a struct stands for.
    fn named_view(&self, env: &Environment<'_>, name: &Name) -> View
        requires { Counts self.now }
        ensures { result ≡ named_view (environment_of env.now).outer (shape_fields self.now) name.now }
    {
        match self.count_field(name.word.as_bytes()) {
            Some(number) => View::Field(number),
            None => global_view(env.outer_named(name.word.as_bytes())),
        }
    }

    /// The view of an extent in a struct, which is right.
    fn extent_view(&self, env: &Environment<'_>, extent: &Extent) -> View
        requires { Counts self.now }
        ensures { extent_inside (environment_of env.now) (shape_fields self.now) extent.now ≡ Ok tt → result ≡ extent_view (environment_of env.now).outer (shape_fields self.now) extent.now }
    {
        match extent {
            Extent::Name(name) => self.named_view(env, name),
            Extent::Number(_, n) => {
                if n.value <= 65_536 {
                    View::Count(n.value as u32)
                } else {
                    View::One
                }
            }
        }
    }

    /// The view of a declarator in a struct, whose extent is right.
    fn view_of(&self, env: &Environment<'_>, base: &Base, pointer: &Option<Pointer>) -> View
        requires { Counts self.now }
        ensures { pointer_inside (environment_of env.now) (shape_fields self.now) pointer.now ≡ Ok tt → result ≡ view_inside (environment_of env.now).outer (shape_fields self.now) base.now pointer.now }
    {
        match pointer {
            None => plain_view(base, pointer),
            Some(stars) => match &stars.extent {
                None => plain_view(base, pointer),
                Some(extent) => self.extent_view(env, extent),
            },
        }
    }
}

/// The place of a field's type: that of its declarator, or an array of it.
fn field_place(frame: &Frame<'_>, x: OneField<'_>) -> u32
    requires { is_array_count x.declarator.now.count ≡ true }
    ensures { result ≡ field_place (frame_seen frame.now) x.entry.base.now x.entry.declarator.now }
{
    let count = &x.declarator.count;
    let t = frame.declared_type(x.base, &x.declarator.pointer);
    let element = frame.types.place(t);
    match count {
        None => element,
        Some(_) => frame.types.place_of(Ty::Array(element, elements(count))),
    }
}

/// What a field is, by its name.
pub(crate) fn field_info(frame: &Frame<'_>, x: OneField<'_>) -> FieldInfo
    ensures ty { result.ty ≡ (field_info (frame_seen frame.now) (one_field x.entry)).ty }
    ensures array { result.array ≡ (field_info (frame_seen frame.now) (one_field x.entry)).array }
{
    FieldInfo {
        ty: frame.declared_type(x.base, &x.declarator.pointer),
        array: x.declarator.count.is_some(),
    }
}

/// A field as the version has it.
pub(crate) fn field_decl(
    frame: &Frame<'_>,
    env: &Environment<'_>,
    shape: Shape<'_>,
    x: OneField<'_>,
) -> Result<FieldDecl, CheckFault>
    requires counts { Counts shape }
    requires outer { (environment_of env.now).outer ≡ (frame_seen frame.now).outer }
    requires counted { is_array_count x.declarator.now.count ≡ true }
    requires viewed { pointer_inside (environment_of env.now) (shape_fields shape) x.declarator.now.pointer ≡ Ok tt }
    ensures { Judges (λ x. x) result (Ok (field_decl (frame_seen frame.now) (shape_fields shape.entry) (one_field x.entry))) }
{
    let declarator = x.declarator;
    let ty = field_place(frame, x);
    let view = shape.view_of(env, x.base, &declarator.pointer);
    let name = Vec::from_slice(frame.alloc, declarator.name.word.as_bytes())?;
    Ok(FieldDecl {
        name: Text::from_vec(name),
        ty,
        view,
    })
}
