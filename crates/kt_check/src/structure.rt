//! Structs (ISO/IEC 9899:2011, 6.7.2.1).

ghost use Rattle.std.specs.Prelude.{◌≡◌, Ok, IfOk};
ghost use Rattle.std.specs.Option.{is_some};
ghost use Rattle.kt_names.specs.Judges.{Judges};
ghost use Rattle.kt_names.specs.Environment.{struct_numbered};
ghost use Rattle.kt_check.specs.Files.{struct, no_field, fields_in, fields_from, with_struct};
ghost use Rattle.kt_check.specs.Shapes.{within_of, Holds, struct_parts};
ghost use Rattle.kt_check.specs.Stages.{frame_seen, sofar_of, Keeps, right, behind_right};

use crate::extent::holds;
use crate::fields::{counts_of, fields_in};
use crate::frame::Frame;
use crate::shape::{Shape, Within};
use crate::sofar::{Defined, Sofar};
use crate::within::fields_from;
use kt_grammar::Name;
use kt_names::fault::CheckFault;
use kt_names::info::StructInfo;
use kt_names::judged::both;
use kt_syntax::Fields;

/// Whether the struct of this number is defined.
fn is_defined(frame: &Frame<'_>, sofar: &Sofar<'_>, number: u32) -> bool
    ensures { result ≡ is_some (struct_numbered (sofar_of sofar.now).structs number) }
{
    frame.outside(sofar).struct_numbered(number).is_some()
}

/// The fields of a struct.
fn fields_of(frame: &Frame<'_>, sofar: &Sofar<'_>, groups: &[Fields]) -> Result<Within, CheckFault>
    ensures within { Judges within_of result (fields_from (frame_seen frame.now) (sofar_of sofar.now) (fields_in groups.now) no_field groups.now) }
    ensures holds { IfOk result (λ w. Holds (frame_seen frame.now) (fields_in groups.now) w) }
{
    let fields = fields_in(frame.alloc, groups)?;
    let counts = counts_of(frame.alloc, &fields)?;
    let shape = Shape {
        fields: &fields,
        counts: &counts,
    };
    fields_from(frame, sofar, shape, Within::new(frame.alloc), groups)
}

/// A struct is defined once, and its fields.
fn struct_parts(
    frame: &Frame<'_>,
    sofar: &Sofar<'_>,
    name: &Name,
    groups: &[Fields],
) -> Result<((), Within), CheckFault>
    ensures parts { Judges (behind_right within_of) result (struct_parts (frame_seen frame.now) (sofar_of sofar.now) name.now groups.now) }
    ensures holds { IfOk result (λ p. Holds (frame_seen frame.now) (fields_in groups.now) p.1) }
{
    let number = frame.number_of_struct(name.word.as_bytes());
    let is_new = !is_defined(frame, sofar, number);
    let once = holds(is_new, CheckFault::Twice { at: name.at });
    both(once, fields_of(frame, sofar, groups))
}

/// A struct more.
fn with_struct<'f>(
    frame: &Frame<'_>,
    sofar: Sofar<'f>,
    name: &Name,
    groups: &[Fields],
    within: Within,
) -> Result<Sofar<'f>, CheckFault>
    requires keeps { Keeps (frame_seen frame.now).names sofar }
    requires right { struct_parts (frame_seen frame.now) (sofar_of sofar) name.now groups.now ≡ Ok (tt, within_of within) }
    requires holds { Holds (frame_seen frame.now) (fields_in groups.now) within }
    ensures sofar { Judges sofar_of result (Ok (with_struct (frame_seen frame.now) (sofar_of sofar.entry) name.now (fields_in groups.now) within.cells)) }
    ensures keeps { IfOk result (λ s. Keeps (frame_seen frame.now).names s) }
{
    if within.infos.len() > u32::MAX as usize {
        return Err(CheckFault::NoMemory);
    }
    let mut now = sofar;
    let number = frame.number_of_struct(name.word.as_bytes());
    let info = StructInfo {
        fields: within.infos,
        cells: within.cells,
    };
    now.structs.insert(number, info)?;
    now.defined.push(Defined {
        number,
        fields: within.decls,
    })?;
    Ok(now)
}

/// A definition of a struct.
pub(crate) fn structure<'f>(
    frame: &Frame<'_>,
    sofar: Sofar<'f>,
    name: &Name,
    groups: &[Fields],
) -> Result<Sofar<'f>, CheckFault>
    requires keeps { Keeps (frame_seen frame.now).names sofar }
    ensures sofar { Judges sofar_of result (struct (frame_seen frame.now) (sofar_of sofar.entry) name.now groups.now) }
    ensures keeps { IfOk result (λ s. Keeps (frame_seen frame.now).names s) }
{
    match struct_parts(frame, &sofar, name, groups) {
        Ok(parts) => with_struct(frame, sofar, name, groups, parts.1),
        Err(fault) => Err(fault),
    }
}
