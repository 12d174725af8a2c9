//! A version.
ghost use Rattle.std.specs.Prelude.{◌≡◌, ◌<◌, IfOk, IfSome, length, map, take};
ghost use Rattle.kt_tree.specs.Names.{place_of};
ghost use Rattle.kt_tree.specs.Tree.{function_of};
ghost use Rattle.kt_tree.specs.Version.{Program, IsProgram, IsNumbered, global_names, function_names, update_points, program};

use super::copies::{both, copy_functions};
use super::function::Fun;
use super::global::GlobalDecl;
use super::lists::{Functions, Globals, Literals};
use super::names::{Names, names_of, names_of_functions, names_of_globals};
use kt_types::{Points, Text, TypeTable};
use std::alloc::{AllocError, Global};
use std::marker::Model;

/// A version of a C program: its types, globals, strings, functions and names of points, each with the type that it
/// is to have.
#[derive(Drop)]
pub struct Version {
    types: TypeTable,
    globals: Globals,
    literals: Literals,
    functions: Functions,
    points: Points,
    // The names of the globals, of the functions and of the update points, for look-ups.
    global_names: Names,
    function_names: Names,
    point_names: Names,
}

impl Model for Version {
    ghost use Rattle.kt_tree.specs.Version.{Program};
    ghost use Rattle.kt_tree.specs.Stored.{program_code};

    ghost Value = { Program };

    ghost coded = { program_code };

    ghost use Rattle.kt_tree.specs.Inside.{program_of, KeepsProgram};

    ghost view = { program_of };

    ghost invariant = { KeepsProgram };
}

impl Version {
    /// The version of these parts.
    pub fn new(
        alloc: Global,
        types: TypeTable,
        globals: Globals,
        literals: Literals,
        functions: Functions,
        points: Points,
    ) -> Result<Version, AllocError>
        requires program { IsProgram (program types globals literals (map function_of functions) points) }
        requires numbered { IsNumbered (program types globals literals (map function_of functions) points) }
        ensures { IfOk result (λ v. v ≡ program types globals literals (map function_of functions) points) }
    {
        let global_names = match names_of_globals(alloc, globals.as_slice()) {
            Ok(global_names) => global_names,
            Err(e) => {
                drop(types);
                drop(globals);
                drop(literals);
                drop(functions);
                drop(points);
                return Err(e);
            }
        };
        let function_names = match names_of_functions(alloc, functions.as_slice()) {
            Ok(function_names) => function_names,
            Err(e) => {
                drop(types);
                drop(globals);
                drop(literals);
                drop(functions);
                drop(points);
                drop(global_names);
                return Err(e);
            }
        };
        let point_names = match names_of(alloc, update_points(&points)) {
            Ok(point_names) => point_names,
            Err(e) => {
                drop(types);
                drop(globals);
                drop(literals);
                drop(functions);
                drop(points);
                drop(global_names);
                drop(function_names);
                return Err(e);
            }
        };
        Ok(Version {
            types,
            globals,
            literals,
            functions,
            points,
            global_names,
            function_names,
            point_names,
        })
    }

    /// A version that is equal to this one.
    pub fn copy(&self) -> Result<Version, AllocError>
        ensures { IfOk result (λ v. v ≡ self.now) }
    {
        let alloc = self.globals.allocator();
        let lists = both(
            self.globals.clone(),
            both(self.literals.clone(), self.points.clone()),
        );
        let functions = copy_functions(self.functions.as_slice(), alloc);
        let (types, (functions, (globals, (literals, points)))) = both(
            self.types.clone(),
            both(functions, lists),
        )?;
        Version::new(alloc, types, globals, literals, functions, points)
    }

    /// The types.
    pub fn types(&self) -> &TypeTable
        ensures { result.now ≡ self.now.types }
    {
        &self.types
    }

    /// The globals, in the order of the file.
    pub fn globals(&self) -> &[GlobalDecl]
        ensures { result.now ≡ self.now.globals }
    {
        self.globals.as_slice()
    }

    /// The strings, in the order of the file.
    pub fn literals(&self) -> &[Text]
        ensures { result.now ≡ self.now.literals }
    {
        self.literals.as_slice()
    }

    /// The functions, in the order of their definitions.
    pub fn functions(&self) -> &[Fun]
        ensures { map function_of result.now ≡ self.now.functions }
    {
        self.functions.as_slice()
    }

    /// The names of points.
    pub fn points(&self) -> &Points
        ensures { result.now ≡ self.now.points }
    {
        &self.points
    }

    /// The number of the global of this name.
    pub fn global(&self, name: &[u8]) -> Option<u32>
        ensures place { result ≡ place_of name.now (global_names self.now) }
        ensures within { IfSome result (λ place. place < length self.now.globals) }
    {
        self.global_names.find(name)
    }

    /// The number of the function of this name.
    pub fn function(&self, name: &[u8]) -> Option<u32>
        ensures place { result ≡ place_of name.now (function_names self.now) }
        ensures within { IfSome result (λ place. place < length self.now.functions) }
    {
        self.function_names.find(name)
    }

    /// The number of the point of this name, at which the version may be updated.
    pub fn point(&self, name: &[u8]) -> Option<u32>
        ensures place { result ≡ place_of name.now (update_points self.now) }
        ensures within { IfSome result (λ place. place < self.now.points.updates) }
    {
        self.point_names.find(name)
    }
}

/// What every version is.
pub fn version_law(version: &Version)
    ensures program { IsProgram version.now }
    ensures numbered { IsNumbered version.now }
{
    let _ = &version.types;
}

// The names of the points at which a version may be updated.
fn update_points(points: &Points) -> &[Text]
    ensures { result.now ≡ take points.now.updates points.now.names }
{
    let updates = points.updates() as usize;
    &points.as_slice()[..updates]
}
