//! All locals of a function, in the order of their declarations.

ghost use Rattle.std.specs.Prelude.{◌≡◌, List, [], ◌∷◌, ◌++◌, map, OnOk, IfOk, IfErr};
ghost use Rattle.kt_syntax.specs.Tree.{declaration_of, start_of, statement_of, statements_of, routine_of};
ghost use Rattle.kt_names.specs.declared.fault.CheckFault.TheVariants.{NoMemory};
ghost use Rattle.kt_names.specs.Uses.{where_there};
ghost use Rattle.kt_names.specs.Tables.{declared_type, locals_in, start_locals, statement_locals, block_locals, parameter_local, locals_of};
ghost use Rattle.kt_names.specs.Views.{environment_of};
ghost use Rattle.kt_names.specs.Scopes.{declared_as};
ghost use Rattle.kt_names.specs.Firsts.{AreFirst};

use crate::declarator::{ctype, stars_of};
use indexmap::IndexMap;
use kt_grammar::{Base, Name};
use kt_names::ctype::CType;
use kt_names::environment::Environment;
use kt_names::fault::CheckFault;
use kt_names::info::LocalInfo;
use kt_names::put::put;
use kt_syntax::{ForStart, Function, Locals, Parameter, Pointer, Stmt};
use sqlite_items::Items;
use std::alloc::Global;

/// Adds a local.
fn add<'f>(
    env: &Environment<'_>,
    base: &'f Base,
    pointer: &'f Option<Pointer>,
    name: &'f Name,
    all: &mut Vec<LocalInfo<'f>>,
) -> Result<(), CheckFault>
    ensures added { OnOk result (map declared_as all.new.items ≡ map declared_as all.old.items ++ record { name = name.now.word; ty = declared_type (environment_of env.now).names base.now pointer.now; base = base.now; pointer = pointer.now } ∷ []) }
    ensures memory { IfErr result (λ f. f ≡ NoMemory) }
{
    let ty = ctype(env, base, stars_of(pointer))?;
    all.push(LocalInfo {
        name: name.word.as_bytes(),
        ty,
        base,
        pointer,
    })?;
    Ok(())
}

/// Adds the locals of a declaration.
fn add_declaration<'f>(
    env: &Environment<'_>,
    d: &'f Locals,
    all: &mut Vec<LocalInfo<'f>>,
) -> Result<(), CheckFault>
    ensures added { OnOk result (map declared_as all.new.items ≡ map declared_as all.old.items ++ locals_in (environment_of env.now).names (declaration_of d.now)) }
    ensures memory { IfErr result (λ f. f ≡ NoMemory) }
{
    for declarator in d.declarators.as_slice() {
        add(env, &d.base, &declarator.pointer, &declarator.name, all)?;
    }
    Ok(())
}

/// Adds the locals that stand first in a `for`.
fn add_start<'f>(
    env: &Environment<'_>,
    first: &'f ForStart,
    all: &mut Vec<LocalInfo<'f>>,
) -> Result<(), CheckFault>
    ensures added { OnOk result (map declared_as all.new.items ≡ map declared_as all.old.items ++ start_locals (environment_of env.now).names (start_of first.now)) }
    ensures memory { IfErr result (λ f. f ≡ NoMemory) }
{
    match first {
        ForStart::Nothing => Ok(()),
        ForStart::Locals(d) => add_declaration(env, d, all),
        ForStart::Expr(_) => Ok(()),
    }
}

/// Adds the locals of a block.
#[cycle(statements)]
fn add_block<'f>(
    list: &'f Items<Stmt>,
    env: &Environment<'_>,
    all: &mut Vec<LocalInfo<'f>>,
) -> Result<(), CheckFault>
    ensures added { OnOk result (map declared_as all.new.items ≡ map declared_as all.old.items ++ block_locals (environment_of env.now).names (statements_of (map statement_of list.now))) }
    ensures memory { IfErr result (λ f. f ≡ NoMemory) }
{
    for entry in list.as_slice() {
        add_statement(entry, env, all)?;
    }
    Ok(())
}

/// Adds the locals of a statement.
#[cycle(statements)]
fn add_statement<'f>(
    s: &'f Stmt,
    env: &Environment<'_>,
    all: &mut Vec<LocalInfo<'f>>,
) -> Result<(), CheckFault>
    ensures added { OnOk result (map declared_as all.new.items ≡ map declared_as all.old.items ++ statement_locals (environment_of env.now).names (statement_of s.now)) }
    ensures memory { IfErr result (λ f. f ≡ NoMemory) }
{
    match s {
        Stmt::Locals(d) => add_declaration(env, d, all),
        Stmt::Block(list) => add_block(list, env, all),
        Stmt::Empty => Ok(()),
        Stmt::Expr(_) => Ok(()),
        Stmt::Return(_, _) => Ok(()),
        Stmt::Break(_) => Ok(()),
        Stmt::Continue(_) => Ok(()),
        Stmt::If(_, inner) => add_statement(inner.get(), env, all),
        Stmt::IfElse(_, inner, other) => {
            add_statement(inner.get(), env, all)?;
            add_statement(other.get(), env, all)
        }
        Stmt::While(_, inner) => add_statement(inner.get(), env, all),
        Stmt::Do(inner, _) => add_statement(inner.get(), env, all),
        Stmt::For(first, _, _, inner) => {
            add_start(env, first, all)?;
            add_statement(inner.get(), env, all)
        }
    }
}

/// Adds the parameters of a function.
fn add_parameters<'f>(
    env: &Environment<'_>,
    parameters: &'f [Parameter],
    all: &mut Vec<LocalInfo<'f>>,
) -> Result<(), CheckFault>
    ensures added { OnOk result (map declared_as all.new.items ≡ map declared_as all.old.items ++ map (parameter_local (environment_of env.now).names) parameters.now) }
    ensures memory { IfErr result (λ f. f ≡ NoMemory) }
{
    for parameter in parameters {
        add(
            env,
            &parameter.base,
            &parameter.pointer,
            &parameter.name,
            all,
        )?;
    }
    Ok(())
}

/// Adds the locals of a function's body.
fn add_body<'f>(
    env: &Environment<'_>,
    f: &'f Function,
    all: &mut Vec<LocalInfo<'f>>,
) -> Result<(), CheckFault>
    ensures added { OnOk result (map declared_as all.new.items ≡ map declared_as all.old.items ++ where_there (λ b. block_locals (environment_of env.now).names b.entries) (routine_of f.now).body) }
    ensures memory { IfErr result (λ f. f ≡ NoMemory) }
{
    match &f.body {
        Some(body) => add_block(&body.entries, env, all),
        None => Ok(()),
    }
}

/// All locals of a function: its parameters, and then those of its body.
pub(crate) fn locals_of<'f>(
    env: &Environment<'_>,
    f: &'f Function,
) -> Result<Vec<LocalInfo<'f>>, CheckFault>
    ensures listed { IfOk result (λ ls. map declared_as ls.items ≡ locals_of (environment_of env.now).names (routine_of f.now)) }
    ensures memory { IfErr result (λ f. f ≡ NoMemory) }
{
    let mut all = Vec::new(env.alloc);
    add_parameters(env, f.parameters.as_slice(), &mut all)?;
    add_body(env, f, &mut all)?;
    Ok(all)
}

/// The type of each local.
pub(crate) fn types_of(alloc: Global, locals: &[LocalInfo<'_>]) -> Result<Vec<CType>, CheckFault>
    ensures listed { IfOk result (λ ts. ts.items ≡ map (λ l. l.ty) locals.now) }
    ensures memory { IfErr result (λ f. f ≡ NoMemory) }
{
    let mut types = Vec::new(alloc);
    for local in locals {
        types.push(local.ty)?;
    }
    Ok(types)
}

/// The place of the first local of each name.
pub(crate) fn first_places(
    alloc: Global,
    locals: &[LocalInfo<'_>],
) -> Result<IndexMap<Vec<u8>, usize>, CheckFault>
    ensures places { IfOk result (λ m. AreFirst m.entries locals.now) }
    ensures memory { IfErr result (λ f. f ≡ NoMemory) }
{
    let mut first = IndexMap::new(alloc);
    for (place, local) in locals.iter().enumerate() {
        put(&mut first, alloc, local.name, place)?;
    }
    Ok(first)
}
