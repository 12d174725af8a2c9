//! Statements and blocks (ISO/IEC 9899:2011, 6.8).

ghost use Rattle.std.specs.Prelude.{◌≡◌, ◌+◌, ◌≤◌, length, map, IfOk, OnOk, None, Some};
ghost use Rattle.std.specs.Option.{option_map};
ghost use Rattle.kt_grammar.specs.Tree.{term_of};
ghost use Rattle.kt_syntax.specs.Tree as syntax;
ghost use Rattle.kt_tree.specs.Tree as tree;
ghost use Rattle.kt_typing.specs.Faults.{bad_type};
ghost use Rattle.kt_program.specs.Declarators.{where_not};
ghost use Rattle.kt_program.specs.Judgments.{Judgment, Held, NoMore};
ghost use Rattle.kt_program.specs.Scopes.{here, looped, passed};
ghost use Rattle.kt_program.specs.Statements.{one_line, under, returned_value, start, behind_start, start_locals, locals_in, locals_among, behind, statement, entries};
ghost use Rattle.kt_statements.specs.Judged.{Judges, JudgesLines, tree_made, lines_made};
ghost use Rattle.kt_statements.specs.Scopes.{body_of, place_of, behind_entries, Fits};

use crate::answer::{Lines, Tree, under};
use crate::local::{appended, declaration};
use crate::part::{self, condition, conversion, effect};
use crate::scopes::{Body, Scopes};
use crate::{line, whole};
use kt_declarations::first::where_not;
use kt_expressions::spelled::first_token;
use kt_grammar::Expr;
use kt_operators::first::earlier;
use kt_syntax::{ForStart, Stmt};
use kt_typing::{Fault, Kind};
use sqlite_items::Items;
use std::alloc::{AllocError, Global};

// `break` or `continue`, which stands in a loop.
fn jump(alloc: Global, in_loop: bool, at: u32, s: kt_tree::Stmt) -> Result<Lines, AllocError>
    ensures { IfOk result (λ r. Judges lines_made (Held (where_not in_loop (bad_type at)) NoMore (one_line (tree.statement_of s))) r) }
{
    let broken = where_not(in_loop, at, Kind::BadType);
    let lines = line::one(alloc, s)?;
    Ok(under(broken, Ok(lines)))
}

// A fault, whatever the expression is.
fn always(fault: Fault, e: Tree) -> Lines
    ensures { (j : Judgment) → Judges tree_made j e → Judges lines_made (under (Some fault) j) result }
{
    match e {
        Ok(tree) => {
            drop(tree);
            Err(fault)
        }
        Err(other) => Err(earlier(fault, other)),
    }
}

// What is returned: an expression exactly where the function has a result.
fn returned(
    body: &Body<'_>,
    scopes: &Scopes<'_>,
    at: u32,
    e: &Option<Expr>,
) -> Result<Lines, AllocError>
    requires { Fits body.now scopes.now }
    ensures { IfOk result (λ r. Judges lines_made (returned_value (here (body_of body.now) (place_of scopes.now)) at (option_map term_of e.now) (body_of body.now).result) r) }
{
    let alloc = body.environment.alloc;
    match e {
        None => {
            let broken = where_not(body.result.is_none(), at, Kind::BadType);
            let lines = line::one(alloc, kt_tree::Stmt::Return(None))?;
            Ok(under(broken, Ok(lines)))
        }
        Some(e) => match body.result {
            None => {
                let kind = Kind::BadType;
                let value = effect(body, scopes, e)?;
                Ok(always(Fault { at, kind }, value))
            }
            Some(ty) => {
                let value = conversion(body, scopes, ty, first_token(e), e)?;
                whole::returned(alloc, value)
            }
        },
    }
}

// What stands first between the parentheses of `for`.
fn start<'f>(
    body: &Body<'f>,
    scopes: &mut Scopes<'f>,
    first: &'f ForStart,
) -> Result<Lines, AllocError>
    requires fits { Fits body.now scopes.old }
    requires room { (place_of scopes.old).next + start_locals (syntax.start_of first.now) ≤ length (body_of body.now).environment.scope.locals }
    ensures typed { IfOk result (λ r. Judges lines_made (start (body_of body.now) (place_of scopes.old) (syntax.start_of first.now)) r) }
    ensures fits { OnOk result (Fits body.now scopes.new) }
    ensures place { OnOk result (place_of scopes.new ≡ behind_start (place_of scopes.old) (syntax.start_of first.now)) }
{
    let alloc = body.environment.alloc;
    match first {
        ForStart::Nothing => Ok(Ok(Items::new(alloc))),
        ForStart::Locals(d) => declaration(body, scopes, d),
        ForStart::Expr(e) => {
            let value = effect(body, scopes, e)?;
            whole::evaluated(alloc, value)
        }
    }
}

/// Entries of a block.
#[cycle(statements)]
pub(crate) fn entries<'f>(
    es: &'f Items<Stmt>,
    body: &Body<'f>,
    scopes: &mut Scopes<'f>,
) -> Result<Lines, AllocError>
    requires fits { Fits body.now scopes.old }
    requires room { (place_of scopes.old).next + locals_among (syntax.statements_of (map syntax.statement_of es.now)) ≤ length (body_of body.now).environment.scope.locals }
    ensures typed { IfOk result (λ r. JudgesLines (entries (body_of body.now) (place_of scopes.old) (syntax.statements_of (map syntax.statement_of es.now))) r) }
    ensures fits { OnOk result (Fits body.now scopes.new) }
    ensures place { OnOk result (place_of scopes.new ≡ behind_entries (place_of scopes.old) (syntax.statements_of (map syntax.statement_of es.now))) }
{
    let mut all: Lines = Ok(Items::new(body.environment.alloc));
    for s in es.as_slice() {
        let one = statement(s, body, scopes)?;
        all = appended(all, one)?;
    }
    Ok(all)
}

// A block.
#[cycle(statements)]
fn block<'f>(
    es: &'f Items<Stmt>,
    body: &Body<'f>,
    scopes: &mut Scopes<'f>,
) -> Result<Lines, AllocError>
    requires fits { Fits body.now scopes.old }
    requires room { (place_of scopes.old).next + locals_among (syntax.statements_of (map syntax.statement_of es.now)) ≤ length (body_of body.now).environment.scope.locals }
    ensures typed { IfOk result (λ r. Judges lines_made (statement (body_of body.now) (place_of scopes.old) (syntax.Compound (syntax.statements_of (map syntax.statement_of es.now)))) r) }
    ensures fits { OnOk result (Fits body.now scopes.new) }
    ensures place { OnOk result (place_of scopes.new ≡ passed (place_of scopes.old) (locals_among (syntax.statements_of (map syntax.statement_of es.now)))) }
{
    let mark = scopes.mark();
    scopes.enter(body);
    let lines = entries(es, body, scopes)?;
    scopes.leave(body, mark);
    whole::block(body.environment.alloc, lines)
}

// A statement that is a part of another; what it declares goes with it.
#[cycle(statements)]
fn inside<'f>(s: &'f Stmt, body: &Body<'f>, scopes: &mut Scopes<'f>) -> Result<Lines, AllocError>
    requires fits { Fits body.now scopes.old }
    requires room { (place_of scopes.old).next + locals_in (syntax.statement_of s.now) ≤ length (body_of body.now).environment.scope.locals }
    ensures typed { IfOk result (λ r. Judges lines_made (statement (body_of body.now) (place_of scopes.old) (syntax.statement_of s.now)) r) }
    ensures fits { OnOk result (Fits body.now scopes.new) }
    ensures place { OnOk result (place_of scopes.new ≡ passed (place_of scopes.old) (locals_in (syntax.statement_of s.now))) }
{
    let mark = scopes.mark();
    let lines = statement(s, body, scopes)?;
    scopes.leave(body, mark);
    Ok(lines)
}

// The body of a loop.
#[cycle(statements)]
fn repeated<'f>(s: &'f Stmt, body: &Body<'f>, scopes: &mut Scopes<'f>) -> Result<Lines, AllocError>
    requires fits { Fits body.now scopes.old }
    requires room { (place_of scopes.old).next + locals_in (syntax.statement_of s.now) ≤ length (body_of body.now).environment.scope.locals }
    ensures typed { IfOk result (λ r. Judges lines_made (statement (body_of body.now) (looped (place_of scopes.old)) (syntax.statement_of s.now)) r) }
    ensures fits { OnOk result (Fits body.now scopes.new) }
    ensures place { OnOk result (place_of scopes.new ≡ passed (place_of scopes.old) (locals_in (syntax.statement_of s.now))) }
{
    let mark = scopes.mark();
    scopes.enter_loop(body);
    let lines = statement(s, body, scopes)?;
    scopes.leave(body, mark);
    Ok(lines)
}

// `for (first; test; step) s`, a block for the locals of its header.
#[cycle(statements)]
fn counted<'f>(
    s: &'f Stmt,
    first: &'f ForStart,
    test: &Option<Expr>,
    step: &Option<Expr>,
    body: &Body<'f>,
    scopes: &mut Scopes<'f>,
) -> Result<Lines, AllocError>
    requires fits { Fits body.now scopes.old }
    requires room { (place_of scopes.old).next + (start_locals (syntax.start_of first.now) + locals_in (syntax.statement_of s.now)) ≤ length (body_of body.now).environment.scope.locals }
    ensures typed { IfOk result (λ r. Judges lines_made (statement (body_of body.now) (place_of scopes.old) (syntax.Counted (syntax.start_of first.now) (option_map term_of test.now) (option_map term_of step.now) (syntax.statement_of s.now))) r) }
    ensures fits { OnOk result (Fits body.now scopes.new) }
    ensures place { OnOk result (place_of scopes.new ≡ passed (place_of scopes.old) (start_locals (syntax.start_of first.now) + locals_in (syntax.statement_of s.now))) }
{
    let mark = scopes.mark();
    scopes.enter(body);
    let begun = start(body, scopes, first)?;
    let tested = part::test(body, scopes, test)?;
    let stepped = part::step(body, scopes, step)?;
    let inner = repeated(s, body, scopes)?;
    scopes.leave(body, mark);
    whole::for_loop(body.environment.alloc, begun, tested, stepped, inner)
}

/// A statement, with the locals behind it.
#[cycle(statements)]
pub(crate) fn statement<'f>(
    s: &'f Stmt,
    body: &Body<'f>,
    scopes: &mut Scopes<'f>,
) -> Result<Lines, AllocError>
    requires fits { Fits body.now scopes.old }
    requires room { (place_of scopes.old).next + locals_in (syntax.statement_of s.now) ≤ length (body_of body.now).environment.scope.locals }
    ensures typed { IfOk result (λ r. Judges lines_made (statement (body_of body.now) (place_of scopes.old) (syntax.statement_of s.now)) r) }
    ensures fits { OnOk result (Fits body.now scopes.new) }
    ensures place { OnOk result (place_of scopes.new ≡ behind (place_of scopes.old) (syntax.statement_of s.now)) }
{
    let alloc = body.environment.alloc;
    match s {
        Stmt::Locals(d) => declaration(body, scopes, d),
        Stmt::Block(es) => block(es, body, scopes),
        Stmt::Empty => whole::block(alloc, Ok(Items::new(alloc))),
        Stmt::Expr(e) => {
            let value = effect(body, scopes, e)?;
            whole::evaluated(alloc, value)
        }
        Stmt::Return(at, e) => returned(body, scopes, *at, e),
        Stmt::Break(at) => jump(alloc, scopes.in_loop, *at, kt_tree::Stmt::Break),
        Stmt::Continue(at) => jump(alloc, scopes.in_loop, *at, kt_tree::Stmt::Continue),
        Stmt::If(c, a) => {
            let test = condition(body, scopes, c)?;
            let inner = inside(a.get(), body, scopes)?;
            whole::if_alone(alloc, test, inner)
        }
        Stmt::IfElse(c, a, b) => {
            let test = condition(body, scopes, c)?;
            let inner = inside(a.get(), body, scopes)?;
            let other = inside(b.get(), body, scopes)?;
            whole::if_else(alloc, test, inner, other)
        }
        Stmt::While(c, a) => {
            let test = condition(body, scopes, c)?;
            let inner = repeated(a.get(), body, scopes)?;
            whole::while_loop(alloc, test, inner)
        }
        Stmt::Do(a, c) => {
            let inner = repeated(a.get(), body, scopes)?;
            let test = condition(body, scopes, c)?;
            whole::repeated(alloc, inner, test)
        }
        Stmt::For(first, test, step, a) => counted(a.get(), first, test, step, body, scopes),
    }
}
