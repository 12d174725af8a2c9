//! Statements and blocks (ISO/IEC 9899:2011, 6.8).

ghost use Rattle.std.specs.Prelude.{◌≡◌, List, [], ◌∷◌, ◌++◌, map, OnOk, Ok, None, Some, true, if◌then◌else◌};
ghost use Rattle.std.specs.Option.{option_map};
ghost use Rattle.kt_grammar.specs.Tree.{term_of};
ghost use Rattle.kt_syntax.specs.Tree.{Evaluates, Compound, Conditional, Alternative, Looped, Repeated, Counted, start_of, declaration_of, statements_of, statement_of};
ghost use Rattle.kt_tree.specs.Tree as tree;
ghost use Rattle.kt_names.specs.Judges.{Judges};
ghost use Rattle.kt_names.specs.declared.fault.CheckFault.TheVariants.{BadType};
ghost use Rattle.kt_names.specs.Checked.{and_then, fault};
ghost use Rattle.kt_names.specs.Statements.{here, before, start, effect_of, condition, perhaps, statement, entries};
ghost use Rattle.kt_names.specs.Scopes.{state_of, body_of, declared_in, alone, tested_in, heading, heading_tested, head_in, head_of, for_of, pair_of, Grown, Kept};
ghost use Rattle.kt_check.specs.Blocks.{single_in, entry_in, for_in, evaluated_in, returned_in, with_test, with_other, with_body};

use crate::local::locals;
use crate::part::{condition, effect_of, returned, step, test};
use kt_grammar::Expr;
use kt_names::body::Body;
use kt_names::fault::CheckFault;
use kt_names::head::Head;
use kt_names::info::Scopes;
use kt_syntax::{ForStart, Locals};
use kt_tree::Stmt;
use sqlite_items::Items;
use std::alloc::Global;

/// The locals that an entry of a block declares, if it is a declaration.
#[tactic(auto, using(kt_names::proofs::Trees::statements))]
fn declaration(s: &kt_syntax::Stmt) -> Option<&Locals>
    ensures { option_map (λ d. declaration_of d.now) result ≡ declared_in (statement_of s.now) }
{
    match s {
        kt_syntax::Stmt::Locals(d) => Some(d),
        kt_syntax::Stmt::Block(_) => None,
        kt_syntax::Stmt::Empty => None,
        kt_syntax::Stmt::Expr(_) => None,
        kt_syntax::Stmt::Return(_, _) => None,
        kt_syntax::Stmt::Break(_) => None,
        kt_syntax::Stmt::Continue(_) => None,
        kt_syntax::Stmt::If(_, _) => None,
        kt_syntax::Stmt::IfElse(_, _, _) => None,
        kt_syntax::Stmt::While(_, _) => None,
        kt_syntax::Stmt::Do(_, _) => None,
        kt_syntax::Stmt::For(_, _, _, _) => None,
    }
}

/// An expression as a statement.
fn evaluated(body: &Body<'_, '_, '_>, scopes: &Scopes, e: &Expr) -> Result<Stmt, CheckFault>
    ensures { Judges tree.statement_of result (and_then (effect_of (here (body_of body.now) (state_of scopes.now)) (term_of e.now)) (λ v. Ok (tree.Evaluated v))) }
{
    match effect_of(body, scopes, e) {
        Ok(whole) => Ok(Stmt::Expr(whole)),
        Err(fault) => Err(fault),
    }
}

/// A declaration of locals where a statement stands.
fn declared_alone(
    d: &Locals,
    body: &Body<'_, '_, '_>,
    scopes: &mut Scopes,
) -> Result<Stmt, CheckFault>
    ensures judged { Judges (λ s. (tree.statement_of s, scopes.new.next)) result (alone (body_of body.now) (state_of scopes.old) (declaration_of d.now)) }
    ensures kept { OnOk result (Kept scopes.old scopes.new) }
{
    let outer = scopes.enter();
    match locals(d, body, scopes) {
        Ok(inner) => {
            scopes.leave(outer);
            Ok(Stmt::block(inner))
        }
        Err(fault) => Err(fault),
    }
}

/// `break` or `continue`, which stands in a loop.
fn left(in_loop: bool, at: u32, whole: Stmt) -> Result<Stmt, CheckFault>
    ensures { Judges tree.statement_of result (if in_loop then Ok (tree.statement_of whole) else fault (BadType at)) }
{
    if in_loop {
        Ok(whole)
    } else {
        drop(whole);
        Err(CheckFault::BadType { at })
    }
}

/// `if (test) inner`
fn if_alone(alloc: Global, parts: (kt_tree::Expr, Stmt)) -> Result<Stmt, CheckFault>
    ensures { Judges tree.statement_of result (Ok (tree.Conditional (tree.expression_of parts.0) (tree.statement_of parts.1) (tree.Compound tree.Done))) }
{
    let (test, inner) = parts;
    let nothing = Stmt::block(Items::new(alloc));
    let whole = Stmt::if_else(alloc, test, inner, nothing)?;
    Ok(whole)
}

/// `if (test) inner else other`
fn if_else(alloc: Global, parts: (kt_tree::Expr, Stmt), other: Stmt) -> Result<Stmt, CheckFault>
    ensures { Judges tree.statement_of result (Ok (tree.Conditional (tree.expression_of parts.0) (tree.statement_of parts.1) (tree.statement_of other))) }
{
    let (test, inner) = parts;
    let whole = Stmt::if_else(alloc, test, inner, other)?;
    Ok(whole)
}

/// `while (test) inner`
fn while_loop(alloc: Global, parts: (kt_tree::Expr, Stmt)) -> Result<Stmt, CheckFault>
    ensures { Judges tree.statement_of result (Ok (tree.Looped (Some (tree.expression_of parts.0)) None (tree.statement_of parts.1))) }
{
    let (test, inner) = parts;
    let whole = Stmt::looped(alloc, Some(test), None, inner)?;
    Ok(whole)
}

/// `do inner while (test);`
fn repeat_loop(alloc: Global, inner: Stmt, test: kt_tree::Expr) -> Result<Stmt, CheckFault>
    ensures { Judges tree.statement_of result (Ok (tree.Repeated (tree.statement_of inner) (tree.expression_of test))) }
{
    let whole = Stmt::repeat(alloc, inner, test)?;
    Ok(whole)
}

/// A `for` as a block: what stands before the loop, and the loop.
fn for_loop(alloc: Global, head: Head, inner: Stmt) -> Result<Stmt, CheckFault>
    ensures { Judges tree.statement_of result (Ok (for_of (head_of head) (tree.statement_of inner))) }
{
    let Head { first, test, step } = head;
    let whole = Stmt::looped(alloc, test, step, inner)?;
    followed(first, whole)
}

/// A block of these statements and one more.
fn followed(first: Items<Stmt>, last: Stmt) -> Result<Stmt, CheckFault>
    ensures { Judges tree.statement_of result (Ok (tree.Compound (before (map tree.statement_of first) (tree.Then (tree.statement_of last) tree.Done)))) }
{
    let mut all = first;
    all.push(last)?;
    Ok(Stmt::block(all))
}

/// An expression that stands first in a `for`.
fn started_by(body: &Body<'_, '_, '_>, scopes: &Scopes, e: &Expr) -> Result<Items<Stmt>, CheckFault>
    ensures { Judges (λ ss. (map tree.statement_of ss, state_of scopes.now)) result (start (body_of body.now) (state_of scopes.now) (Evaluates (term_of e.now))) }
{
    match effect_of(body, scopes, e) {
        Ok(whole) => one_of(body.outside.alloc, Stmt::Expr(whole)),
        Err(fault) => Err(fault),
    }
}

/// A statement alone.
fn one_of(alloc: Global, statement: Stmt) -> Result<Items<Stmt>, CheckFault>
    ensures { Judges (λ ss. map tree.statement_of ss) result (Ok (tree.statement_of statement ∷ [])) }
{
    let mut all = Items::new(alloc);
    all.push(statement)?;
    Ok(all)
}

/// What stands first in a `for`.
fn start(
    first: &ForStart,
    body: &Body<'_, '_, '_>,
    scopes: &mut Scopes,
) -> Result<Items<Stmt>, CheckFault>
    ensures judged { Judges (λ ss. (map tree.statement_of ss, state_of scopes.new)) result (start (body_of body.now) (state_of scopes.old) (start_of first.now)) }
    ensures grown { OnOk result (Grown scopes.old scopes.new) }
{
    match first {
        ForStart::Nothing => Ok(Items::new(body.outside.alloc)),
        ForStart::Locals(d) => locals(d, body, scopes),
        ForStart::Expr(e) => started_by(body, scopes, e),
    }
}

/// The head of a `for`, behind its first part and its test.
fn head_with(
    first: Items<Stmt>,
    test: Option<kt_tree::Expr>,
    e: &Option<Expr>,
    body: &Body<'_, '_, '_>,
    scopes: &Scopes,
) -> Result<Head, CheckFault>
    ensures { Judges head_of result (and_then (perhaps (effect_of (here (body_of body.now) (state_of scopes.now))) (option_map term_of e.now)) (heading (map tree.statement_of first) (option_map tree.expression_of test))) }
{
    match step(body, scopes, e) {
        Ok(step) => Ok(Head { first, test, step }),
        Err(fault) => {
            drop((first, test));
            Err(fault)
        }
    }
}

/// The head of a `for`, behind its first part.
fn head_behind(
    first: Items<Stmt>,
    tested: &Option<Expr>,
    stepped: &Option<Expr>,
    body: &Body<'_, '_, '_>,
    scopes: &Scopes,
) -> Result<Head, CheckFault>
    ensures { Judges head_of result (and_then (perhaps (condition (here (body_of body.now) (state_of scopes.now))) (option_map term_of tested.now)) (heading_tested (here (body_of body.now) (state_of scopes.now)) (map tree.statement_of first) (option_map term_of stepped.now))) }
{
    match test(body, scopes, tested) {
        Ok(test) => head_with(first, test, stepped, body, scopes),
        Err(fault) => Err(fault),
    }
}

/// What stands before the body of a `for`, and its names.
fn head(
    first: &ForStart,
    tested: &Option<Expr>,
    stepped: &Option<Expr>,
    body: &Body<'_, '_, '_>,
    scopes: &mut Scopes,
) -> Result<Head, CheckFault>
    ensures judged { Judges (λ h. (head_of h, state_of scopes.new)) result (head_in (body_of body.now) (state_of scopes.old) (start_of first.now) (option_map term_of tested.now) (option_map term_of stepped.now)) }
    ensures grown { OnOk result (Grown scopes.old scopes.new) }
{
    match start(first, body, scopes) {
        Ok(first) => head_behind(first, tested, stepped, body, scopes),
        Err(fault) => Err(fault),
    }
}

/// An expression as a statement, with what is behind it.
fn evaluated_here(body: &Body<'_, '_, '_>, scopes: &Scopes, e: &Expr) -> Result<Stmt, CheckFault>
    ensures { Judges (λ s. (tree.statement_of s, scopes.now.next)) result (evaluated_in (body_of body.now) (state_of scopes.now) (term_of e.now)) }
{
    evaluated(body, scopes, e)
}

/// A `return`, with what is behind it.
fn returned_here(
    body: &Body<'_, '_, '_>,
    scopes: &Scopes,
    at: u32,
    e: &Option<Expr>,
) -> Result<Stmt, CheckFault>
    ensures { Judges (λ s. (tree.statement_of s, scopes.now.next)) result (returned_in (body_of body.now) (state_of scopes.now) at (option_map term_of e.now)) }
{
    returned(body, scopes, at, e)
}

/// `do inner while (c);`, behind its inner statement.
fn repeated_behind(
    inner: Stmt,
    c: &Expr,
    body: &Body<'_, '_, '_>,
    scopes: &Scopes,
) -> Result<Stmt, CheckFault>
    ensures { Judges tree.statement_of result (and_then (condition (here (body_of body.now) (state_of scopes.now)) (term_of c.now)) (λ v. Ok (tree.Repeated (tree.statement_of inner) v))) }
{
    match condition(body, scopes, c) {
        Ok(test) => repeat_loop(body.outside.alloc, inner, test),
        Err(fault) => {
            drop(inner);
            Err(fault)
        }
    }
}

/// The entries of a block.
#[cycle(statements)]
pub(crate) fn entries(
    list: &Items<kt_syntax::Stmt>,
    body: &Body<'_, '_, '_>,
    in_loop: bool,
    scopes: &mut Scopes,
) -> Result<Items<Stmt>, CheckFault>
    ensures judged { Judges (λ ss. (tree.statements_of ss, scopes.new.next)) result (entries (body_of body.now) in_loop (state_of scopes.old) (statements_of (map statement_of list.now))) }
    ensures grown { OnOk result (Grown scopes.old scopes.new) }
{
    let mut all = Items::new(body.outside.alloc);
    for item in list.as_slice() {
        match entry(item, body, in_loop, scopes) {
            Ok(more) => all.append(more)?,
            Err(fault) => return Err(fault),
        }
    }
    Ok(all)
}

/// An entry of a block.
#[cycle(statements)]
fn entry(
    s: &kt_syntax::Stmt,
    body: &Body<'_, '_, '_>,
    in_loop: bool,
    scopes: &mut Scopes,
) -> Result<Items<Stmt>, CheckFault>
    ensures judged { Judges (λ ss. (map tree.statement_of ss, state_of scopes.new)) result (entry_in (body_of body.now) in_loop (state_of scopes.old) (statement_of s.now)) }
    ensures grown { OnOk result (Grown scopes.old scopes.new) }
{
    match declaration(s) {
        Some(d) => locals(d, body, scopes),
        None => single(s, body, in_loop, scopes),
    }
}

/// A statement as an entry of a block.
#[cycle(statements)]
fn single(
    s: &kt_syntax::Stmt,
    body: &Body<'_, '_, '_>,
    in_loop: bool,
    scopes: &mut Scopes,
) -> Result<Items<Stmt>, CheckFault>
    ensures judged { Judges (λ ss. (map tree.statement_of ss, state_of scopes.new)) result (single_in (body_of body.now) in_loop (state_of scopes.old) (statement_of s.now)) }
    ensures grown { OnOk result (Grown scopes.old scopes.new) }
{
    match statement(s, body, in_loop, scopes) {
        Ok(one) => one_of(body.outside.alloc, one),
        Err(fault) => Err(fault),
    }
}

/// A block inside.
#[cycle(statements)]
fn block(
    list: &Items<kt_syntax::Stmt>,
    body: &Body<'_, '_, '_>,
    in_loop: bool,
    scopes: &mut Scopes,
) -> Result<Stmt, CheckFault>
    ensures judged { Judges (λ s. (tree.statement_of s, scopes.new.next)) result (statement (body_of body.now) in_loop (state_of scopes.old) (Compound (statements_of (map statement_of list.now)))) }
    ensures kept { OnOk result (Kept scopes.old scopes.new) }
{
    let outer = scopes.enter();
    match entries(list, body, in_loop, scopes) {
        Ok(inner) => {
            scopes.leave(outer);
            Ok(Stmt::block(inner))
        }
        Err(fault) => Err(fault),
    }
}

/// The statement behind a condition.
#[cycle(statements)]
fn behind_test(
    s: &kt_syntax::Stmt,
    test: kt_tree::Expr,
    body: &Body<'_, '_, '_>,
    in_loop: bool,
    scopes: &mut Scopes,
) -> Result<(kt_tree::Expr, Stmt), CheckFault>
    ensures judged { Judges (λ p. (pair_of p, scopes.new.next)) result (with_test (tree.expression_of test) (statement (body_of body.now) in_loop (state_of scopes.old) (statement_of s.now))) }
    ensures kept { OnOk result (Kept scopes.old scopes.new) }
{
    match statement(s, body, in_loop, scopes) {
        Ok(inner) => Ok((test, inner)),
        Err(fault) => {
            drop(test);
            Err(fault)
        }
    }
}

/// A condition and the statement behind it.
#[cycle(statements)]
fn tested(
    s: &kt_syntax::Stmt,
    c: &Expr,
    body: &Body<'_, '_, '_>,
    in_loop: bool,
    scopes: &mut Scopes,
) -> Result<(kt_tree::Expr, Stmt), CheckFault>
    ensures judged { Judges (λ p. (pair_of p, scopes.new.next)) result (tested_in (body_of body.now) in_loop (state_of scopes.old) (term_of c.now) (statement_of s.now)) }
    ensures kept { OnOk result (Kept scopes.old scopes.new) }
{
    match condition(body, scopes, c) {
        Ok(test) => behind_test(s, test, body, in_loop, scopes),
        Err(fault) => Err(fault),
    }
}

/// `if (c) s`
#[cycle(statements)]
fn conditional(
    s: &kt_syntax::Stmt,
    c: &Expr,
    body: &Body<'_, '_, '_>,
    in_loop: bool,
    scopes: &mut Scopes,
) -> Result<Stmt, CheckFault>
    ensures judged { Judges (λ s. (tree.statement_of s, scopes.new.next)) result (statement (body_of body.now) in_loop (state_of scopes.old) (Conditional (term_of c.now) (statement_of s.now))) }
    ensures kept { OnOk result (Kept scopes.old scopes.new) }
{
    match tested(s, c, body, in_loop, scopes) {
        Ok(parts) => if_alone(body.outside.alloc, parts),
        Err(fault) => Err(fault),
    }
}

/// What stands behind `else`.
#[cycle(statements)]
fn otherwise(
    s: &kt_syntax::Stmt,
    parts: (kt_tree::Expr, Stmt),
    body: &Body<'_, '_, '_>,
    in_loop: bool,
    scopes: &mut Scopes,
) -> Result<Stmt, CheckFault>
    ensures judged { Judges (λ s. (tree.statement_of s, scopes.new.next)) result (with_other (pair_of parts) (statement (body_of body.now) in_loop (state_of scopes.old) (statement_of s.now))) }
    ensures kept { OnOk result (Kept scopes.old scopes.new) }
{
    match statement(s, body, in_loop, scopes) {
        Ok(other) => if_else(body.outside.alloc, parts, other),
        Err(fault) => {
            drop(parts);
            Err(fault)
        }
    }
}

/// `while (c) s`
#[cycle(statements)]
fn looped(
    s: &kt_syntax::Stmt,
    c: &Expr,
    body: &Body<'_, '_, '_>,
    scopes: &mut Scopes,
) -> Result<Stmt, CheckFault>
    ensures judged { Judges (λ s. (tree.statement_of s, scopes.new.next)) result (statement (body_of body.now) true (state_of scopes.old) (Looped (term_of c.now) (statement_of s.now))) }
    ensures kept { OnOk result (Kept scopes.old scopes.new) }
{
    match tested(s, c, body, true, scopes) {
        Ok(parts) => while_loop(body.outside.alloc, parts),
        Err(fault) => Err(fault),
    }
}

/// `do s while (c);`
#[cycle(statements)]
fn repeated(
    s: &kt_syntax::Stmt,
    c: &Expr,
    body: &Body<'_, '_, '_>,
    scopes: &mut Scopes,
) -> Result<Stmt, CheckFault>
    ensures judged { Judges (λ s. (tree.statement_of s, scopes.new.next)) result (statement (body_of body.now) true (state_of scopes.old) (Repeated (statement_of s.now) (term_of c.now))) }
    ensures kept { OnOk result (Kept scopes.old scopes.new) }
{
    match statement(s, body, true, scopes) {
        Ok(inner) => repeated_behind(inner, c, body, scopes),
        Err(fault) => Err(fault),
    }
}

/// The body of a `for`, behind its head.
#[cycle(statements)]
fn counted_behind(
    s: &kt_syntax::Stmt,
    head: Head,
    body: &Body<'_, '_, '_>,
    scopes: &mut Scopes,
) -> Result<Stmt, CheckFault>
    ensures judged { Judges (λ s. (tree.statement_of s, scopes.new.next)) result (with_body (head_of head) (statement (body_of body.now) true (state_of scopes.old) (statement_of s.now))) }
    ensures kept { OnOk result (Kept scopes.old scopes.new) }
{
    match statement(s, body, true, scopes) {
        Ok(inner) => for_loop(body.outside.alloc, head, inner),
        Err(fault) => {
            drop(head);
            Err(fault)
        }
    }
}

/// A `for` in its scope.
#[cycle(statements)]
fn counted_in(
    s: &kt_syntax::Stmt,
    heads: (&ForStart, &Option<Expr>, &Option<Expr>),
    body: &Body<'_, '_, '_>,
    scopes: &mut Scopes,
) -> Result<Stmt, CheckFault>
    ensures judged { Judges (λ s. (tree.statement_of s, scopes.new.next)) result (for_in (body_of body.now) (state_of scopes.old) (start_of heads.entry.0.now) (option_map term_of heads.entry.1.now) (option_map term_of heads.entry.2.now) (statement_of s.now)) }
    ensures grown { OnOk result (Grown scopes.old scopes.new) }
{
    match head(heads.0, heads.1, heads.2, body, scopes) {
        Ok(head) => counted_behind(s, head, body, scopes),
        Err(fault) => Err(fault),
    }
}

/// `for (first; test; step) s`
#[cycle(statements)]
fn counted(
    s: &kt_syntax::Stmt,
    heads: (&ForStart, &Option<Expr>, &Option<Expr>),
    body: &Body<'_, '_, '_>,
    scopes: &mut Scopes,
) -> Result<Stmt, CheckFault>
    ensures judged { Judges (λ s. (tree.statement_of s, scopes.new.next)) result (statement (body_of body.now) true (state_of scopes.old) (Counted (start_of heads.entry.0.now) (option_map term_of heads.entry.1.now) (option_map term_of heads.entry.2.now) (statement_of s.now))) }
    ensures kept { OnOk result (Kept scopes.old scopes.new) }
{
    let outer = scopes.enter();
    match counted_in(s, heads, body, scopes) {
        Ok(whole) => {
            scopes.leave(outer);
            Ok(whole)
        }
        Err(fault) => Err(fault),
    }
}

/// A statement, in a loop or not.
#[cycle(statements)]
fn statement(
    s: &kt_syntax::Stmt,
    body: &Body<'_, '_, '_>,
    in_loop: bool,
    scopes: &mut Scopes,
) -> Result<Stmt, CheckFault>
    ensures judged { Judges (λ s. (tree.statement_of s, scopes.new.next)) result (statement (body_of body.now) in_loop (state_of scopes.old) (statement_of s.now)) }
    ensures kept { OnOk result (Kept scopes.old scopes.new) }
{
    match s {
        kt_syntax::Stmt::Locals(d) => declared_alone(d, body, scopes),
        kt_syntax::Stmt::Block(list) => block(list, body, in_loop, scopes),
        kt_syntax::Stmt::Empty => Ok(Stmt::block(Items::new(body.outside.alloc))),
        kt_syntax::Stmt::Expr(e) => evaluated_here(body, scopes, e),
        kt_syntax::Stmt::Return(at, e) => returned_here(body, scopes, *at, e),
        kt_syntax::Stmt::Break(at) => left(in_loop, *at, Stmt::Break),
        kt_syntax::Stmt::Continue(at) => left(in_loop, *at, Stmt::Continue),
        kt_syntax::Stmt::If(c, inner) => conditional(inner.get(), c, body, in_loop, scopes),
        kt_syntax::Stmt::IfElse(c, inner, other) => {
            match tested(inner.get(), c, body, in_loop, scopes) {
                Ok(parts) => otherwise(other.get(), parts, body, in_loop, scopes),
                Err(fault) => Err(fault),
            }
        }
        kt_syntax::Stmt::While(c, inner) => looped(inner.get(), c, body, scopes),
        kt_syntax::Stmt::Do(inner, c) => repeated(inner.get(), c, body, scopes),
        kt_syntax::Stmt::For(first, tested, stepped, inner) => {
            counted(inner.get(), (first, tested, stepped), body, scopes)
        }
    }
}
