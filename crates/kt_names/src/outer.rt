//! What the names of a whole file stand for.

ghost use Rattle.std.specs.Prelude.{◌≡◌, ◌+◌, ◌<◌, ◌^◌, ℕ, List, ◌∷◌, ◌++◌, map, length, OnOk, IfOk};
ghost use Rattle.std.specs.Option.{option_or, option_map};
ghost use Rattle.std.specs.List.{position_from};
ghost use Rattle.std.specs.Map.{lookup};
ghost use Rattle.std.specs.Str.{bytes_eq};
ghost use Rattle.kt_syntax.specs.Tree.{Routine, external_of, routine_of};
ghost use Rattle.kt_names.specs.Outers.{global_of, outer_in, signature_of, first_function};
ghost use Rattle.kt_names.specs.Views.{declared_of};
ghost use Rattle.kt_names.specs.Tables.{OuterGlobal, declared_type, globals_in, globals_of, functions_in, functions_of, defined_in, parameter_types, result_type, global_from, outer_named};

use crate::ctype::CType;
use crate::info::{Outer, Signature};
use crate::put::put;
use crate::types::root_of;
use crate::uses::{result_stars, stars_of};
use indexmap::{IndexMap, IndexSet};
use kt_grammar::{Base, Word};
use kt_syntax::{Function, GlobalDeclarator, Item, Parameter, Pointer};
use sqlite_items::Items;
use std::alloc::{AllocError, Global};

/// A global with the base of its declaration.
#[derive(Clone, Copy)]
pub(crate) struct DeclaredGlobal<'f> {
    pub base: &'f Base,
    pub declarator: &'f GlobalDeclarator,
}

fn push_globals<'f>(
    globals: &mut Vec<DeclaredGlobal<'f>>,
    base: &'f Base,
    more: &'f Items<GlobalDeclarator>,
) -> Result<(), AllocError>
    ensures { OnOk result (map global_of globals.new.items ≡ map global_of globals.old.items ++ map (λ g. record { base = base.now; declarator = g }) more.now) }
{
    for declarator in more.as_slice() {
        globals.push(DeclaredGlobal { base, declarator })?;
    }
    Ok(())
}

fn push_globals_in<'f>(
    globals: &mut Vec<DeclaredGlobal<'f>>,
    item: &'f Item,
) -> Result<(), AllocError>
    ensures { OnOk result (map global_of globals.new.items ≡ map global_of globals.old.items ++ globals_in (external_of item.now)) }
{
    match item {
        Item::Struct(_, None) => Ok(()),
        Item::Struct(_, Some(_)) => Ok(()),
        Item::Globals(base, more) => push_globals(globals, base, more),
        Item::Function(_) => Ok(()),
    }
}

/// The globals of a file, in order.
pub(crate) fn globals_of<'f>(
    alloc: Global,
    items: &'f [Item],
) -> Result<Vec<DeclaredGlobal<'f>>, AllocError>
    ensures { IfOk result (λ globals. map global_of globals.items ≡ globals_of (map external_of items.now)) }
{
    let mut globals = Vec::new(alloc);
    for item in items {
        push_globals_in(&mut globals, item)?;
    }
    Ok(globals)
}

fn push_function_in<'f>(functions: &mut Vec<&'f Function>, item: &'f Item) -> Result<(), AllocError>
    ensures { OnOk result (map (λ f. routine_of f.now) functions.new.items ≡ map (λ f. routine_of f.now) functions.old.items ++ functions_in (external_of item.now)) }
{
    match item {
        Item::Struct(_, None) => Ok(()),
        Item::Struct(_, Some(_)) => Ok(()),
        Item::Globals(_, _) => Ok(()),
        Item::Function(function) => {
            functions.push(function)?;
            Ok(())
        }
    }
}

/// The declarations of functions of a file, in order.
pub(crate) fn functions_of<'f>(
    alloc: Global,
    items: &'f [Item],
) -> Result<Vec<&'f Function>, AllocError>
    ensures { IfOk result (λ functions. map (λ f. routine_of f.now) functions.items ≡ functions_of (map external_of items.now)) }
{
    let mut functions = Vec::new(alloc);
    for item in items {
        push_function_in(&mut functions, item)?;
    }
    Ok(functions)
}

/// The type that a declarator without brackets gives.
pub(crate) fn declared_type(
    structs: &IndexSet<Vec<u8>>,
    base: &Base,
    pointer: &Option<Pointer>,
) -> CType
    requires { length structs.now.keys < 2 ^ 32 }
    ensures { result ≡ declared_type (map (λ n. n.items) structs.now.keys) base.now pointer.now }
{
    CType {
        root: root_of(structs, base),
        stars: stars_of(pointer),
    }
}

/// The types of parameters.
fn parameter_types(
    alloc: Global,
    structs: &IndexSet<Vec<u8>>,
    parameters: &[Parameter],
) -> Result<Vec<CType>, AllocError>
    requires { length structs.now.keys < 2 ^ 32 }
    ensures { IfOk result (λ types. types.items ≡ map (λ p. declared_type (map (λ n. n.items) structs.now.keys) p.base p.pointer) parameters.now) }
{
    let mut types = Vec::new(alloc);
    for parameter in parameters {
        types.push(declared_type(structs, &parameter.base, &parameter.pointer))?;
    }
    Ok(types)
}

/// The type of a function's result; none is `void`.
pub(crate) fn result_type(structs: &IndexSet<Vec<u8>>, function: &Function) -> Option<CType>
    requires { length structs.now.keys < 2 ^ 32 }
    ensures { result ≡ result_type (map (λ n. n.items) structs.now.keys) (routine_of function.now) }
{
    match &function.result {
        Some(base) => Some(CType {
            root: root_of(structs, base),
            stars: result_stars(&function.stars),
        }),
        None => None,
    }
}

/// A function as it is declared, with this number.
fn signature(
    alloc: Global,
    structs: &IndexSet<Vec<u8>>,
    number: Option<u32>,
    function: &Function,
) -> Result<Signature, AllocError>
    requires { length structs.now.keys < 2 ^ 32 }
    ensures { IfOk result (λ s. declared_of s ≡ signature_of (map (λ n. n.items) structs.now.keys) number (routine_of function.now)) }
{
    let parameters = parameter_types(alloc, structs, function.parameters.as_slice())?;
    Ok(Signature {
        parameters,
        result: result_type(structs, function),
        number,
    })
}

/// Notes a function, where it is a definition, under the next number: the next one after it.
fn note_defined(
    numbers: &mut IndexMap<Vec<u8>, u32>,
    alloc: Global,
    number: u32,
    function: &Function,
) -> Result<u32, AllocError>
    ensures { IfOk result (λ next. (fs : List Routine) (q : List ℕ) → option_or (lookup (λ k. bytes_eq q k.items) numbers.new.entries) (position_from (λ f. bytes_eq f.name.word q) next (defined_in fs)) ≡ option_or (lookup (λ k. bytes_eq q k.items) numbers.old.entries) (position_from (λ f. bytes_eq f.name.word q) number (defined_in (routine_of function.now ∷ fs)))) }
{
    match &function.body {
        Some(_) => {
            let next = number.checked_add(1).ok_or(AllocError)?;
            put(numbers, alloc, function.name.word.as_bytes(), number)?;
            Ok(next)
        }
        None => Ok(number),
    }
}

/// The numbers of the functions that are defined, by their names.
fn defined_numbers(
    alloc: Global,
    functions: &[&Function],
) -> Result<IndexMap<Vec<u8>, u32>, AllocError>
    ensures { IfOk result (λ m. (q : List ℕ) → lookup (λ k. bytes_eq q k.items) m.entries ≡ position_from (λ f. bytes_eq f.name.word q) 0 (defined_in (map (λ f. routine_of f.now) functions.now))) }
{
    let mut numbers = IndexMap::new(alloc);
    let mut count = 0;
    for function in functions {
        count = note_defined(&mut numbers, alloc, count, function)?;
    }
    Ok(numbers)
}

/// Puts a global under its name, where nothing is under it.
fn put_global(
    outer: &mut IndexMap<Vec<u8>, Outer>,
    alloc: Global,
    structs: &IndexSet<Vec<u8>>,
    number: u32,
    global: DeclaredGlobal<'_>,
) -> Result<u32, AllocError>
    requires { length structs.now.keys < 2 ^ 32 }
    ensures { IfOk result (λ next. (gs : List OuterGlobal) (q : List ℕ) → option_or (outer_in outer.new.entries q) (global_from (map (λ n. n.items) structs.now.keys) next gs q) ≡ option_or (outer_in outer.old.entries q) (global_from (map (λ n. n.items) structs.now.keys) number (global_of global.entry ∷ gs) q)) }
{
    let next = number.checked_add(1).ok_or(AllocError)?;
    let declarator = &global.declarator.declarator;
    let ty = declared_type(structs, global.base, &declarator.pointer);
    let info = Outer::Global(number, ty, declarator.count.is_some());
    put(outer, alloc, declarator.name.word.as_bytes(), info)?;
    Ok(next)
}

/// The globals by their names.
fn global_table(
    alloc: Global,
    structs: &IndexSet<Vec<u8>>,
    globals: &[DeclaredGlobal<'_>],
) -> Result<IndexMap<Vec<u8>, Outer>, AllocError>
    requires { length structs.now.keys < 2 ^ 32 }
    ensures { IfOk result (λ m. (q : List ℕ) → outer_in m.entries q ≡ global_from (map (λ n. n.items) structs.now.keys) 0 (map global_of globals.now) q) }
{
    let mut outer = IndexMap::new(alloc);
    let mut count = 0;
    for global in globals {
        count = put_global(&mut outer, alloc, structs, count, *global)?;
    }
    Ok(outer)
}

/// The number that is noted under a name.
fn number_under(numbers: &IndexMap<Vec<u8>, u32>, word: &Word) -> Option<u32>
    ensures { result ≡ lookup (λ k. bytes_eq word.now k.items) numbers.now.entries }
{
    numbers.get(word.as_bytes()).copied()
}

/// Puts a function under its name, where nothing is under it, with its number among the definitions.
fn put_function(
    outer: &mut IndexMap<Vec<u8>, Outer>,
    alloc: Global,
    structs: &IndexSet<Vec<u8>>,
    numbers: &IndexMap<Vec<u8>, u32>,
    function: &Function,
) -> Result<(), AllocError>
    requires { length structs.now.keys < 2 ^ 32 }
    ensures { OnOk result ((fs : List Routine) (q : List ℕ) → option_or (outer_in outer.new.entries q) (first_function (map (λ n. n.items) structs.now.keys) (lookup (λ k. bytes_eq q k.items) numbers.now.entries) fs q) ≡ option_or (outer_in outer.old.entries q) (first_function (map (λ n. n.items) structs.now.keys) (lookup (λ k. bytes_eq q k.items) numbers.now.entries) (routine_of function.now ∷ fs) q)) }
{
    let word = &function.name.word;
    let declared = signature(alloc, structs, number_under(numbers, word), function)?;
    put(outer, alloc, word.as_bytes(), Outer::Function(declared))?;
    Ok(())
}

/// Puts functions under their names, each where nothing is under it.
fn put_functions(
    outer: &mut IndexMap<Vec<u8>, Outer>,
    alloc: Global,
    structs: &IndexSet<Vec<u8>>,
    numbers: &IndexMap<Vec<u8>, u32>,
    functions: &[&Function],
) -> Result<(), AllocError>
    requires { length structs.now.keys < 2 ^ 32 }
    ensures { OnOk result ((q : List ℕ) → outer_in outer.new.entries q ≡ option_or (outer_in outer.old.entries q) (first_function (map (λ n. n.items) structs.now.keys) (lookup (λ k. bytes_eq q k.items) numbers.now.entries) (map (λ f. routine_of f.now) functions.now) q)) }
{
    for function in functions {
        put_function(outer, alloc, structs, numbers, function)?;
    }
    Ok(())
}

/// What the names of a file with these structs stand for.
pub(crate) fn outer_table(
    alloc: Global,
    structs: &IndexSet<Vec<u8>>,
    items: &[Item],
) -> Result<IndexMap<Vec<u8>, Outer>, AllocError>
    requires { length structs.now.keys < 2 ^ 32 }
    ensures { IfOk result (λ m. (q : List ℕ) → outer_in m.entries q ≡ outer_named (map (λ n. n.items) structs.now.keys) (map external_of items.now) q) }
{
    let globals = globals_of(alloc, items)?;
    let functions = functions_of(alloc, items)?;
    let numbers = defined_numbers(alloc, &functions)?;
    let mut outer = global_table(alloc, structs, &globals)?;
    put_functions(&mut outer, alloc, structs, &numbers, &functions)?;
    Ok(outer)
}
