//! Tests of the table and of the small lists, with ample memory.

ghost use Rattle.std.specs.Prelude.{◌≡◌, ◌<◌, ℕ, slice_get, length, IfOk, IsTrue, Some};
ghost use Rattle.kt_types.specs.Layout.{IsFitting, NamesPlaces};

use kt_types::{Field, FieldDecl, Numbers, Points, Text, Turns, Ty, TypeFault, TypeTable, View};
use std::alloc::{AllocError, Global};
use std::test::Fail;

// Whether the table can take the type.
fn can_take(table: &TypeTable, ty: Ty) -> bool
    ensures places { IsTrue result → NamesPlaces table.now ty }
    ensures fits { IsTrue result → IsFitting table.now ty }
{
    match ty {
        Ty::Struct(s) => s < table.struct_count(),
        Ty::Ptr(pointee) => pointee < table.type_count(),
        Ty::Array(element, count) => {
            element < table.type_count()
                && table.is_complete(element)
                && 1 <= count
                && u64::from(count) * u64::from(table.cells_of(element)) <= 65_536
        }
        Ty::Char | Ty::Int | Ty::Long | Ty::Mutex => true,
    }
}

// The place of the type, which the table can take.
fn place(table: &mut TypeTable, ty: Ty) -> Result<u32, Fail> {
    if table.type_count() == u32::MAX || !can_take(table, ty) {
        return Err(Fail::from("a type that the table can't take"));
    }
    Ok(table.intern(ty)?)
}

// Fields of these names and types, places below `types`, with the plain view. Where a type is none, the answer is one
// that no test wants.
fn fields(alloc: Global, types: u32, fields: &[(&str, u32)]) -> Result<Vec<FieldDecl>, TypeFault>
    ensures { IfOk result (λ r. (n : ℕ) (f : FieldDecl) → slice_get r.items n ≡ Some f → f.ty < types) }
{
    let mut declared = Vec::new(alloc);
    for (name, ty) in fields {
        if *ty >= types {
            return Err(TypeFault::NoMemory);
        }
        declared.push(FieldDecl {
            name: Text::from_vec(Vec::from_slice(alloc, name.as_bytes())?),
            ty: *ty,
            view: View::One,
        })?;
    }
    Ok(declared)
}

// What defining the struct by fields of these names and types answers. Where it can't be asked, the answer is one that
// no test wants.
fn define(
    alloc: Global,
    table: &mut TypeTable,
    s: u32,
    names: &[(&str, u32)],
) -> Result<(), TypeFault> {
    let declared = fields(alloc, table.type_count(), names)?;
    if s >= table.struct_count() || declared.is_empty() {
        return Err(TypeFault::NoMemory);
    }
    table.define_struct(s, declared)
}

// The scalar type, as a word with a space behind it.
fn word(out: &mut String, ty: Ty) -> Result<(), AllocError> {
    match ty {
        Ty::Char => out.push_str("char "),
        Ty::Int => out.push_str("int "),
        Ty::Long => out.push_str("long "),
        Ty::Mutex => out.push_str("mutex "),
        Ty::Ptr(pointee) => write!(out, "*{pointee} "),
        Ty::Struct(_) | Ty::Array(_, _) => out.push_str("no scalar "),
    }
}

// The cells of the type, or that it is not complete.
fn cells(alloc: Global, table: &TypeTable, ty: u32) -> Result<String, AllocError> {
    let mut out = String::new(alloc);
    if !table.is_complete(ty) {
        out.push_str("incomplete")?;
        return Ok(out);
    }
    for i in 0..table.cells_of(ty) {
        word(&mut out, table.cell_type(ty, i))?;
    }
    Ok(out)
}

// How many cells the type has; 0 where it is not complete.
fn count(table: &TypeTable, ty: u32) -> u32 {
    if table.is_complete(ty) {
        table.cells_of(ty)
    } else {
        0
    }
}

#[test]
fn texts_and_points_give_their_vectors_back(rt: HostRuntime) -> Result<(), Fail> {
    let text = Text::from_vec(Vec::from_slice(rt.alloc(), b"node")?);
    let same = text.as_bytes() == b"node".as_slice();
    assert!(rt; same);
    assert!(rt; text.into_vec().len() == 4);
    let mut names = Vec::new(rt.alloc());
    names.push(Text::from_vec(Vec::from_slice(rt.alloc(), b"top")?))?;
    let points = Points::from_vec(names, 1);
    let counts = (points.updates(), points.as_slice().len());
    assert!(rt; counts == (1, 1));
    assert!(rt; points.into_vec().len() == 1);
    Ok(())
}

#[test]
fn numbers_and_turns_give_their_vectors_back(rt: HostRuntime) -> Result<(), Fail> {
    let numbers = Numbers::from_vec(Vec::from_slice(rt.alloc(), &[7, 70_000])?);
    let same = numbers.as_slice() == [7, 70_000].as_slice();
    assert!(rt; same);
    assert!(rt; numbers.into_vec().len() == 2);
    let turns = Turns::from_vec(Vec::from_slice(rt.alloc(), &[0, 64])?);
    let same = turns.as_slice() == [0, 64].as_slice();
    assert!(rt; same);
    assert!(rt; turns.into_vec().len() == 2);
    Ok(())
}

// The numbers of the names, one after the other.
fn numbers(alloc: Global, table: &mut TypeTable, names: &[&str]) -> Result<String, Fail> {
    let mut out = String::new(alloc);
    for name in names {
        let number = table.declare_struct(name.as_bytes())?;
        write!(out, "{number} ")?;
    }
    Ok(out)
}

#[test]
fn names_have_one_number_each(rt: HostRuntime) -> Result<(), Fail> {
    let mut table = TypeTable::new(rt.alloc())?;
    let found = numbers(rt.alloc(), &mut table, &["node", "list", "node"]);
    let named = table.struct_name(1) == Some(b"list".as_slice());
    let count = table.struct_count();
    drop(table);
    assert_eq!(rt; found?.as_str(), "0 1 0 ");
    assert!(rt; named && count == 2);
    Ok(())
}

// The places of the types, one after the other.
fn places(alloc: Global, table: &mut TypeTable, types: &[Ty]) -> Result<String, Fail> {
    let mut out = String::new(alloc);
    for ty in types {
        let at = place(table, *ty)?;
        write!(out, "{at} ")?;
    }
    Ok(out)
}

// Types, some of them twice.
const TYPES: [Ty; 7] = [
    Ty::Char,
    Ty::Long,
    Ty::Mutex,
    Ty::Ptr(1),
    Ty::Array(4, 65_536),
    Ty::Ptr(1),
    Ty::Array(4, 17),
];

#[test]
fn types_have_one_place_each(rt: HostRuntime) -> Result<(), Fail> {
    let mut table = TypeTable::new(rt.alloc())?;
    let found = places(rt.alloc(), &mut table, &TYPES);
    let got = table.get(6) == Some(Ty::Array(4, 17)) && table.get(7).is_none();
    let counts = (table.type_count(), count(&table, 5));
    drop(table);
    assert_eq!(rt; found?.as_str(), "0 2 3 4 5 4 6 ");
    assert!(rt; got && counts == (7, 65_536));
    Ok(())
}

// Declares and defines `struct node { int key; long sum; struct node *next; }`, the type at place 4, and
// `struct list { char mark; struct node nodes[2]; pthread_mutex_t lock; }`, the type at place 7.
fn define_lists(alloc: Global, table: &mut TypeTable) -> Result<(), Fail> {
    table.declare_struct(b"node")?;
    table.declare_struct(b"list")?;
    place(table, Ty::Struct(0))?;
    place(table, Ty::Ptr(4))?;
    define(alloc, table, 0, &[("key", 1), ("sum", 2), ("next", 5)])?;
    place(table, Ty::Array(4, 2))?;
    place(table, Ty::Struct(1))?;
    define(alloc, table, 1, &[("mark", 0), ("nodes", 6), ("lock", 3)])?;
    Ok(())
}

// The cells of `struct list`.
fn list_cells(alloc: Global, table: &mut TypeTable) -> Result<String, Fail> {
    define_lists(alloc, table)?;
    Ok(cells(alloc, table, 7)?)
}

#[test]
fn structs_join_cells_and_arrays_repeat_them(rt: HostRuntime) -> Result<(), Fail> {
    let mut table = TypeTable::new(rt.alloc())?;
    let found = list_cells(rt.alloc(), &mut table);
    drop(table);
    assert_eq!(rt; found?.as_str(), "char int long *4 int long *4 mutex ");
    Ok(())
}

// Whether fields are found, and none where there is none.
fn finds_fields(table: &TypeTable) -> bool {
    let lock = Field {
        index: 2,
        cell: 7,
        ty: 3,
        view: View::One,
    };
    table.field_at(1, b"lock") == Some(lock)
        && table.field_at(1, b"key").is_none()
        && table.field_at(2, b"lock").is_none()
        && table.fields(1).is_some()
        && table.fields(2).is_none()
}

// Whether they are found in a copy too.
fn copy_finds_fields(table: &TypeTable) -> Result<bool, AllocError> {
    let copy = table.clone()?;
    Ok(finds_fields(&copy))
}

#[test]
fn fields_are_found_by_name(rt: HostRuntime) -> Result<(), Fail> {
    let mut table = TypeTable::new(rt.alloc())?;
    let defined = define_lists(rt.alloc(), &mut table);
    let found = finds_fields(&table);
    let copied = copy_finds_fields(&table);
    drop(table);
    defined?;
    assert!(rt; found && copied?);
    Ok(())
}

// What each definition of a struct, the type at place 4, answers. An array of 65,536 `char` is the type at place 5.
fn answers(alloc: Global, table: &mut TypeTable, rows: &[&[(&str, u32)]]) -> Result<String, Fail> {
    table.declare_struct(b"big")?;
    place(table, Ty::Struct(0))?;
    place(table, Ty::Array(0, 65_536))?;
    let mut out = String::new(alloc);
    for fields in rows {
        match define(alloc, table, 0, fields) {
            Ok(()) => out.push_str("defined; ")?,
            Err(fault) => write!(out, "{fault}; ")?,
        }
    }
    Ok(out)
}

#[test]
fn definitions_are_answered_in_order(rt: HostRuntime) -> Result<(), Fail> {
    let rows: [&[(&str, u32)]; 5] = [
        &[("a", 4), ("a", 1)],
        &[("a", 5), ("b", 4)],
        &[("a", 5), ("b", 1)],
        &[("a", 5)],
        &[("b", 1)],
    ];
    let mut table = TypeTable::new(rt.alloc())?;
    let found = answers(rt.alloc(), &mut table, &rows);
    let count = count(&table, 4);
    drop(table);
    assert_eq!(rt;
        found?.as_str(),
        "defined twice; a field of an incomplete type; more than 65,536 cells; defined; defined twice; "
    );
    assert!(rt; count == 65_536);
    Ok(())
}
