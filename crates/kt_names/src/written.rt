//! The strings that a file writes, in its order.

ghost use Rattle.std.specs.Prelude.{◌≡◌, [], ◌∷◌, ◌++◌, map, flat_map, OnOk, IfOk};
ghost use Rattle.std.specs.Option.{option_map};
ghost use Rattle.kt_grammar.specs.Tree.{Called, term_of, terms_of};
ghost use Rattle.kt_syntax.specs.Tree.{declaration_of, start_of, statement_of, statements_of, external_of, local_of, routine_of};
ghost use Rattle.kt_names.specs.Gathered.{written_as, written_in, text_in, first_argument};
ghost use Rattle.kt_names.specs.Uses.{where_there};
ghost use Rattle.kt_names.specs.Tables.{first_written, term_written, terms_written, declaration_written, start_written, statement_written, block_written, constant_written, external_written, written_of};

use crate::builtin::{Builtin, builtin_named};
use kt_grammar::{Expr, Name};
use kt_syntax::{Constant, ForStart, Function, GlobalDeclarator, Item, Locals, Stmt};
use sqlite_items::Items;
use std::alloc::{AllocError, Global};
use std::marker::Model;

/// A string, and what it is.
#[derive(Clone, Copy)]
pub(crate) enum Written<'f> {
    /// A literal at its place.
    Literal(u32, &'f [u8]),
    /// The name of an update point.
    Updates(&'f [u8]),
    /// A name that is asked about.
    Asks(&'f [u8]),
}

/// Strings that a text writes.
#[derive(Drop)]
pub(crate) struct Strings<'f> {
    strings: Vec<Written<'f>>,
}

impl<'f> Model for Strings<'f> {
    ghost use Rattle.std.specs.Prelude.{List};
    ghost use Rattle.kt_names.specs.Tables.{Written};
    ghost use Rattle.kt_names.specs.Gathered.{written_in};

    ghost Value = { List Written };

    ghost view = { λ s. written_in s.strings.items };
}

/// The string that an expression is, with its place.
fn text_in(expr: &Expr) -> Option<(u32, &[u8])>
    ensures { option_map (λ t. (t.0, t.1.now)) result ≡ text_in expr.now }
{
    match expr {
        Expr::Number(_, _) => None,
        Expr::Character(_, _) => None,
        Expr::Text(at, bytes) => Some((*at, bytes.as_slice())),
        Expr::Null(_) => None,
        Expr::Eof(_) => None,
        Expr::Name(_) => None,
        Expr::Call(_, _) => None,
        Expr::Paren(_, _) => None,
        Expr::SizeOf(_, _) => None,
        Expr::Rule(_, _) => None,
        Expr::OldSymbol(_, _) => None,
        Expr::New(_, _) => None,
        Expr::Transform(_, _) => None,
        Expr::Index(_, _) => None,
        Expr::Field(_, _) => None,
        Expr::Arrow(_, _) => None,
        Expr::Step(_, _) => None,
        Expr::Prefix(_, _, _) => None,
        Expr::Cast(_, _, _) => None,
        Expr::Binary(_, _, _) => None,
        Expr::Choice(_, _, _) => None,
        Expr::Assign(_, _, _) => None,
    }
}

impl<'f> Strings<'f> {
    /// No strings.
    pub(crate) fn new(alloc: Global) -> Strings<'f>
        ensures { result ≡ [] }
    {
        Strings {
            strings: Vec::new(alloc),
        }
    }

    /// The strings, in order.
    pub(crate) fn as_slice(&self) -> &[Written<'f>]
        ensures { written_in result.now ≡ self.now }
    {
        self.strings.as_slice()
    }

    /// One string more.
    fn push(&mut self, written: Written<'f>) -> Result<(), AllocError>
        ensures { OnOk result (self.new ≡ self.old ++ written_as written.entry ∷ []) }
    {
        self.strings.push(written)?;
        Ok(())
    }

    /// The first string of a call, as the call has it.
    fn push_first(
        &mut self,
        builtin: Option<Builtin>,
        at: u32,
        bytes: &'f [u8],
    ) -> Result<(), AllocError>
        ensures { OnOk result (self.new ≡ self.old ++ first_written builtin at bytes.now) }
    {
        match builtin {
            Some(Builtin::Printf) => Ok(()),
            Some(Builtin::Update) => self.push(Written::Updates(bytes)),
            Some(Builtin::IsUpdatingFrom) => self.push(Written::Asks(bytes)),
            _ => self.push(Written::Literal(at, bytes)),
        }
    }

    /// The strings of an expression more.
    #[cycle(exprs)]
    pub(crate) fn push_expr(&mut self, expr: &'f Expr) -> Result<(), AllocError>
        ensures { OnOk result (self.new ≡ self.old ++ term_written (term_of expr.now)) }
    {
        match expr {
            Expr::Number(_, _) => Ok(()),
            Expr::Character(_, _) => Ok(()),
            Expr::Text(at, bytes) => self.push(Written::Literal(*at, bytes.as_slice())),
            Expr::Null(_) => Ok(()),
            Expr::Eof(_) => Ok(()),
            Expr::Name(_) => Ok(()),
            Expr::Call(name, arguments) => self.push_call(name, arguments.as_slice()),
            Expr::Paren(_, a) => self.push_expr(a.get()),
            Expr::SizeOf(_, _) => Ok(()),
            Expr::Rule(_, _) => Ok(()),
            Expr::OldSymbol(_, _) => Ok(()),
            Expr::New(_, _) => Ok(()),
            Expr::Transform(_, a) => self.push_expr(a.get()),
            Expr::Index(a, i) => {
                self.push_expr(a.get())?;
                self.push_expr(i.get())
            }
            Expr::Field(a, _) => self.push_expr(a.get()),
            Expr::Arrow(a, _) => self.push_expr(a.get()),
            Expr::Step(a, _) => self.push_expr(a.get()),
            Expr::Prefix(_, _, a) => self.push_expr(a.get()),
            Expr::Cast(_, _, a) => self.push_expr(a.get()),
            Expr::Binary(_, a, b) => {
                self.push_expr(a.get())?;
                self.push_expr(b.get())
            }
            Expr::Choice(c, a, b) => {
                self.push_expr(c.get())?;
                self.push_expr(a.get())?;
                self.push_expr(b.get())
            }
            Expr::Assign(_, a, b) => {
                self.push_expr(a.get())?;
                self.push_expr(b.get())
            }
        }
    }

    #[cycle(exprs)]
    fn push_call(&mut self, name: &'f Name, arguments: &'f [Expr]) -> Result<(), AllocError>
        ensures { OnOk result (self.new ≡ self.old ++ term_written (Called name.now (terms_of (map term_of arguments.now)))) }
    {
        match arguments {
            [] => Ok(()),
            [first, rest @ ..] => {
                self.push_argument(name, first)?;
                self.push_exprs(rest)
            }
        }
    }

    #[cycle(exprs)]
    fn push_argument(&mut self, name: &'f Name, first: &'f Expr) -> Result<(), AllocError>
        ensures { OnOk result (self.new ≡ self.old ++ first_argument name.now first.now) }
    {
        match text_in(first) {
            Some((at, bytes)) => self.push_first(builtin_named(name.word.as_bytes()), at, bytes),
            None => self.push_expr(first),
        }
    }

    #[cycle(exprs)]
    fn push_exprs(&mut self, exprs: &'f [Expr]) -> Result<(), AllocError>
        ensures { OnOk result (self.new ≡ self.old ++ terms_written (terms_of (map term_of exprs.now))) }
    {
        for expr in exprs {
            self.push_expr(expr)?;
        }
        Ok(())
    }

    /// The strings of an expression more, where there is one.
    fn push_if_some(&mut self, expr: &'f Option<Expr>) -> Result<(), AllocError>
        ensures { OnOk result (self.new ≡ self.old ++ where_there term_written (option_map term_of expr.now)) }
    {
        match expr {
            Some(expr) => self.push_expr(expr),
            None => Ok(()),
        }
    }

    fn push_locals(&mut self, locals: &'f Locals) -> Result<(), AllocError>
        ensures { OnOk result (self.new ≡ self.old ++ declaration_written (declaration_of locals.now)) }
    {
        for local in locals.declarators.as_slice() {
            self.push_if_some(&local.initial)?;
        }
        Ok(())
    }

    fn push_start(&mut self, start: &'f ForStart) -> Result<(), AllocError>
        ensures { OnOk result (self.new ≡ self.old ++ start_written (start_of start.now)) }
    {
        match start {
            ForStart::Nothing => Ok(()),
            ForStart::Locals(locals) => self.push_locals(locals),
            ForStart::Expr(expr) => self.push_expr(expr),
        }
    }

    /// The strings between the parentheses of `for` more.
    fn push_head(
        &mut self,
        start: &'f ForStart,
        test: &'f Option<Expr>,
        step: &'f Option<Expr>,
    ) -> Result<(), AllocError>
        ensures { OnOk result (self.new ≡ self.old ++ (start_written (start_of start.now) ++ (where_there term_written (option_map term_of test.now) ++ where_there term_written (option_map term_of step.now)))) }
    {
        self.push_start(start)?;
        self.push_if_some(test)?;
        self.push_if_some(step)
    }

    /// The strings of a statement more.
    #[cycle(stmts)]
    fn push_stmt(&mut self, stmt: &'f Stmt) -> Result<(), AllocError>
        ensures { OnOk result (self.new ≡ self.old ++ statement_written (statement_of stmt.now)) }
    {
        match stmt {
            Stmt::Locals(locals) => self.push_locals(locals),
            Stmt::Block(entries) => self.push_stmts(entries),
            Stmt::Empty => Ok(()),
            Stmt::Expr(expr) => self.push_expr(expr),
            Stmt::Return(_, value) => self.push_if_some(value),
            Stmt::Break(_) => Ok(()),
            Stmt::Continue(_) => Ok(()),
            Stmt::If(test, then) => {
                self.push_expr(test)?;
                self.push_stmt(then.get())
            }
            Stmt::IfElse(test, then, other) => {
                self.push_expr(test)?;
                self.push_stmt(then.get())?;
                self.push_stmt(other.get())
            }
            Stmt::While(test, body) => {
                self.push_expr(test)?;
                self.push_stmt(body.get())
            }
            Stmt::Do(body, test) => {
                self.push_stmt(body.get())?;
                self.push_expr(test)
            }
            Stmt::For(start, test, step, body) => {
                self.push_head(start, test, step)?;
                self.push_stmt(body.get())
            }
        }
    }

    #[cycle(stmts)]
    fn push_stmts(&mut self, stmts: &'f Items<Stmt>) -> Result<(), AllocError>
        ensures { OnOk result (self.new ≡ self.old ++ block_written (statements_of (map statement_of stmts.now))) }
    {
        for stmt in stmts.as_slice() {
            self.push_stmt(stmt)?;
        }
        Ok(())
    }

    fn push_constant(&mut self, constant: &'f Constant) -> Result<(), AllocError>
        ensures { OnOk result (self.new ≡ self.old ++ constant_written constant.now) }
    {
        match constant {
            Constant::Number(_) => Ok(()),
            Constant::Negative(_) => Ok(()),
            Constant::Character(_) => Ok(()),
            Constant::Text(at, bytes) => self.push(Written::Literal(*at, bytes.as_slice())),
            Constant::Null => Ok(()),
            Constant::Eof => Ok(()),
            Constant::MutexInitializer => Ok(()),
        }
    }

    fn push_initial(&mut self, initial: &'f Option<Constant>) -> Result<(), AllocError>
        ensures { OnOk result (self.new ≡ self.old ++ where_there constant_written initial.now) }
    {
        match initial {
            Some(constant) => self.push_constant(constant),
            None => Ok(()),
        }
    }

    fn push_globals(&mut self, globals: &'f Items<GlobalDeclarator>) -> Result<(), AllocError>
        ensures { OnOk result (self.new ≡ self.old ++ flat_map (λ g. where_there constant_written g.initial) globals.now) }
    {
        for global in globals.as_slice() {
            self.push_initial(&global.initial)?;
        }
        Ok(())
    }

    fn push_function(&mut self, function: &'f Function) -> Result<(), AllocError>
        ensures { OnOk result (self.new ≡ self.old ++ where_there (λ b. block_written b.entries) (routine_of function.now).body) }
    {
        match &function.body {
            Some(body) => self.push_stmts(&body.entries),
            None => Ok(()),
        }
    }

    fn push_item(&mut self, item: &'f Item) -> Result<(), AllocError>
        ensures { OnOk result (self.new ≡ self.old ++ external_written (external_of item.now)) }
    {
        match item {
            Item::Struct(_, None) => Ok(()),
            Item::Struct(_, Some(_)) => Ok(()),
            Item::Globals(_, globals) => self.push_globals(globals),
            Item::Function(function) => self.push_function(function),
        }
    }

    /// All strings that a file writes.
    pub(crate) fn of(alloc: Global, items: &'f [Item]) -> Result<Strings<'f>, AllocError>
        ensures { IfOk result (λ strings. strings ≡ written_of (map external_of items.now)) }
    {
        let mut strings = Strings::new(alloc);
        for item in items {
            strings.push_item(item)?;
        }
        Ok(strings)
    }
}
