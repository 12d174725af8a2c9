//! The names of a file are identifiers, as the parser leaves them.

ghost use Rattle.std.specs.Prelude.{◌≡◌, true, map};
ghost use Rattle.std.specs.List.{list_all};
ghost use Rattle.kt_syntax.specs.Tree.{declaration_of, start_of, statement_of, statements_of, definition_of, routine_of, external_of, local_of};
ghost use Rattle.std.specs.Option.{option_map};
ghost use Rattle.kt_tree.specs.Names.{is_identifier};
ghost use Rattle.kt_check.specs.Named.{are_named_fields, is_named_field, is_named_global, is_named_parameter, is_named_local, are_named_locals, is_named_start, is_named_statement, are_named_statements, is_named_body, is_named_routine, is_named};

use kt_grammar::Name;
use kt_syntax::{
    Body, Declarator, Fields, ForStart, Function, GlobalDeclarator, Item, LocalDeclarator, Locals,
    Parameter, Stmt,
};
use sqlite_items::Items;

/// The name is an identifier.
fn identifier(name: &Name)
    ensures { is_identifier name.now.word ≡ true }
{
    let _ = name.word.as_bytes();
}

fn fields(declarators: &[Declarator])
    ensures { list_all is_named_field declarators.now ≡ true }
{
    for declarator in declarators {
        identifier(&declarator.name);
    }
}

fn struct_fields(all: &[Fields])
    ensures { list_all are_named_fields all.now ≡ true }
{
    for one in all {
        fields(one.declarators.as_slice());
    }
}

fn globals(globals: &[GlobalDeclarator])
    ensures { list_all is_named_global globals.now ≡ true }
{
    for global in globals {
        identifier(&global.declarator.name);
    }
}

fn parameters(parameters: &[Parameter])
    ensures { list_all is_named_parameter parameters.now ≡ true }
{
    for parameter in parameters {
        identifier(&parameter.name);
    }
}

fn declarators(declarators: &[LocalDeclarator])
    ensures { list_all is_named_local (map local_of declarators.now) ≡ true }
{
    for declarator in declarators {
        identifier(&declarator.name);
    }
}

fn locals(locals: &Locals)
    ensures { are_named_locals (declaration_of locals.now) ≡ true }
{
    declarators(locals.declarators.as_slice());
}

fn start(start: &ForStart)
    ensures { is_named_start (start_of start.now) ≡ true }
{
    match start {
        ForStart::Nothing => (),
        ForStart::Locals(declared) => locals(declared),
        ForStart::Expr(_) => (),
    }
}

/// The names of the locals of a statement, and of all in it, are identifiers.
#[cycle(stmts)]
#[tactic(auto, using(kt_names::proofs::Trees::statements))]
fn statement(stmt: &Stmt)
    ensures { is_named_statement (statement_of stmt.now) ≡ true }
{
    match stmt {
        Stmt::Locals(declared) => locals(declared),
        Stmt::Block(entries) => statements(entries),
        Stmt::Empty => (),
        Stmt::Expr(_) => (),
        Stmt::Return(_, _) => (),
        Stmt::Break(_) => (),
        Stmt::Continue(_) => (),
        Stmt::If(_, then) => statement(then.get()),
        Stmt::IfElse(_, then, other) => {
            statement(then.get());
            statement(other.get());
        }
        Stmt::While(_, body) => statement(body.get()),
        Stmt::Do(body, _) => statement(body.get()),
        Stmt::For(first, _, _, body) => {
            start(first);
            statement(body.get());
        }
    }
}

#[cycle(stmts)]
fn statements(stmts: &Items<Stmt>)
    ensures { are_named_statements (statements_of (map statement_of stmts.now)) ≡ true }
{
    for stmt in stmts.as_slice() {
        statement(stmt);
    }
}

fn body(body: &Option<Body>)
    ensures { is_named_body (option_map definition_of body.now) ≡ true }
{
    match body {
        Some(body) => statements(&body.entries),
        None => (),
    }
}

fn function(function: &Function)
    ensures { is_named_routine (routine_of function.now) ≡ true }
{
    identifier(&function.name);
    parameters(function.parameters.as_slice());
    body(&function.body);
}

fn item(item: &Item)
    ensures { is_named (external_of item.now) ≡ true }
{
    match item {
        Item::Struct(_, None) => (),
        Item::Struct(_, Some(all)) => struct_fields(all.as_slice()),
        Item::Globals(_, all) => globals(all.as_slice()),
        Item::Function(one) => function(one),
    }
}

/// All names of a file are identifiers.
pub(crate) fn names(items: &[Item])
    ensures { list_all is_named (map external_of items.now) ≡ true }
{
    for one in items {
        item(one);
    }
}
