//! The types that a file names, in its order.

ghost use Rattle.std.specs.Prelude.{◌≡◌, [], ◌∷◌, ◌++◌, ◌+◌, map, flat_map, OnOk, IfOk};
ghost use Rattle.kt_grammar.specs.Tree.{term_of, terms_of};
ghost use Rattle.kt_names.specs.Gathered.{use_of, uses_in};
ghost use Rattle.kt_syntax.specs.Tree.{declaration_of, start_of, statement_of, statements_of, definition_of, routine_of, external_of, local_of};
ghost use Rattle.std.specs.Option.{option_map};
ghost use Rattle.kt_names.specs.Uses.{Starred, stars_of, where_there, called_uses, named_uses, term_uses, terms_uses, local_uses, declaration_uses, start_uses, statement_uses, statements_uses, field_uses, fields_uses, global_uses, parameter_uses, result_uses, result_stars, head_uses, body_uses, external_uses, uses_of};

use kt_grammar::{Base, Expr, Name, TypeName};
use kt_syntax::{
    Declarator, Fields, ForStart, Function, GlobalDeclarator, Item, LocalDeclarator, Locals,
    Parameter, Pointer, Stars, Stmt,
};
use sqlite_items::Items;
use std::alloc::{AllocError, Global};
use std::marker::Model;

/// A type as a text names it.
#[derive(Clone, Copy)]
pub(crate) enum Use<'f> {
    /// `char *`
    Text,
    /// A base with so many stars.
    Starred(&'f Base, usize),
    /// An array of so many of a base with so many stars.
    Arrayed(&'f Base, usize, u32),
}

/// Types that a text names.
#[derive(Drop)]
pub(crate) struct Uses<'f> {
    uses: Vec<Use<'f>>,
}

impl<'f> Model for Uses<'f> {
    ghost use Rattle.std.specs.Prelude.{List};
    ghost use Rattle.kt_names.specs.Uses.{Use};
    ghost use Rattle.kt_names.specs.Gathered.{uses_in};

    ghost Value = { List Use };

    ghost view = { λ u. uses_in u.uses.items };
}

impl<'f> Uses<'f> {
    /// No types.
    pub(crate) fn new(alloc: Global) -> Uses<'f>
        ensures { result ≡ [] }
    {
        Uses {
            uses: Vec::new(alloc),
        }
    }

    /// The types, in order.
    pub(crate) fn as_slice(&self) -> &[Use<'f>]
        ensures { uses_in result.now ≡ self.now }
    {
        self.uses.as_slice()
    }

    /// One type more.
    fn push(&mut self, named: Use<'f>) -> Result<(), AllocError>
        ensures { OnOk result (self.new ≡ self.old ++ use_of named.entry ∷ []) }
    {
        self.uses.push(named)?;
        Ok(())
    }

    /// A pointer to a type more.
    fn push_pointer(&mut self, base: &'f Base, stars: usize) -> Result<(), AllocError>
        ensures { OnOk result (self.new ≡ self.old ++ Starred base.now (stars + 1) ∷ []) }
    {
        match stars.checked_add(1) {
            Some(stars) => self.push(Use::Starred(base, stars)),
            None => Err(AllocError),
        }
    }

    fn push_called(&mut self, name: &Name) -> Result<(), AllocError>
        ensures { OnOk result (self.new ≡ self.old ++ called_uses name.now) }
    {
        if name.word.as_bytes() == b"malloc".as_slice() {
            self.push(Use::Text)
        } else {
            Ok(())
        }
    }

    fn push_named(&mut self, named: &'f TypeName) -> Result<(), AllocError>
        ensures { OnOk result (self.new ≡ self.old ++ named_uses named.now) }
    {
        self.push_pointer(&named.base, named.stars)
    }

    /// The types of an expression more.
    #[cycle(exprs)]
    #[tactic(auto, using(crate::proofs::Trees::terms))]
    pub(crate) fn push_expr(&mut self, expr: &'f Expr) -> Result<(), AllocError>
        ensures { OnOk result (self.new ≡ self.old ++ term_uses (term_of expr.now)) }
    {
        match expr {
            Expr::Number(_, _) => Ok(()),
            Expr::Character(_, _) => Ok(()),
            Expr::Text(_, _) => self.push(Use::Text),
            Expr::Null(_) => self.push(Use::Text),
            Expr::Eof(_) => Ok(()),
            Expr::Name(_) => Ok(()),
            Expr::Call(name, arguments) => {
                self.push_called(name)?;
                self.push_exprs(arguments)
            }
            Expr::Paren(_, a) => self.push_expr(a.get()),
            Expr::SizeOf(_, named) => self.push_named(named),
            Expr::Rule(_, _) => Ok(()),
            Expr::OldSymbol(_, _) => Ok(()),
            Expr::New(_, _) => Ok(()),
            Expr::Transform(_, _) => Ok(()),
            Expr::Index(a, i) => {
                self.push_expr(a.get())?;
                self.push_expr(i.get())
            }
            Expr::Field(a, _) => self.push_expr(a.get()),
            Expr::Arrow(a, _) => self.push_expr(a.get()),
            Expr::Step(a, _) => self.push_expr(a.get()),
            Expr::Prefix(_, _, a) => self.push_expr(a.get()),
            Expr::Cast(_, named, a) => {
                self.push_named(named)?;
                self.push_expr(a.get())
            }
            Expr::Binary(_, a, b) => {
                self.push_expr(a.get())?;
                self.push_expr(b.get())
            }
            Expr::Choice(c, a, b) => {
                self.push_expr(c.get())?;
                self.push_expr(a.get())?;
                self.push_expr(b.get())
            }
            Expr::Assign(_, a, b) => {
                self.push_expr(a.get())?;
                self.push_expr(b.get())
            }
        }
    }

    #[cycle(exprs)]
    fn push_exprs(&mut self, exprs: &'f Items<Expr>) -> Result<(), AllocError>
        ensures { OnOk result (self.new ≡ self.old ++ terms_uses (terms_of (map term_of exprs.now))) }
    {
        for expr in exprs.as_slice() {
            self.push_expr(expr)?;
        }
        Ok(())
    }

    /// The types of an expression more, where there is one.
    fn push_if_some(&mut self, expr: &'f Option<Expr>) -> Result<(), AllocError>
        ensures { OnOk result (self.new ≡ self.old ++ where_there term_uses (option_map term_of expr.now)) }
    {
        match expr {
            Some(expr) => self.push_expr(expr),
            None => Ok(()),
        }
    }

    fn push_local(&mut self, base: &'f Base, local: &'f LocalDeclarator) -> Result<(), AllocError>
        ensures { OnOk result (self.new ≡ self.old ++ local_uses base.now (local_of local.now)) }
    {
        self.push(Use::Starred(base, stars_of(&local.pointer)))?;
        self.push_if_some(&local.initial)
    }

    fn push_locals(&mut self, locals: &'f Locals) -> Result<(), AllocError>
        ensures { OnOk result (self.new ≡ self.old ++ declaration_uses (declaration_of locals.now)) }
    {
        for local in locals.declarators.as_slice() {
            self.push_local(&locals.base, local)?;
        }
        Ok(())
    }

    fn push_start(&mut self, start: &'f ForStart) -> Result<(), AllocError>
        ensures { OnOk result (self.new ≡ self.old ++ start_uses (start_of start.now)) }
    {
        match start {
            ForStart::Nothing => Ok(()),
            ForStart::Locals(locals) => self.push_locals(locals),
            ForStart::Expr(expr) => self.push_expr(expr),
        }
    }

    /// The types of a statement more.
    #[cycle(stmts)]
    fn push_stmt(&mut self, stmt: &'f Stmt) -> Result<(), AllocError>
        ensures { OnOk result (self.new ≡ self.old ++ statement_uses (statement_of stmt.now)) }
    {
        match stmt {
            Stmt::Locals(locals) => self.push_locals(locals),
            Stmt::Block(entries) => self.push_stmts(entries),
            Stmt::Empty => Ok(()),
            Stmt::Expr(expr) => self.push_expr(expr),
            Stmt::Return(_, value) => self.push_if_some(value),
            Stmt::Break(_) => Ok(()),
            Stmt::Continue(_) => Ok(()),
            Stmt::If(test, then) => {
                self.push_expr(test)?;
                self.push_stmt(then.get())
            }
            Stmt::IfElse(test, then, other) => {
                self.push_expr(test)?;
                self.push_stmt(then.get())?;
                self.push_stmt(other.get())
            }
            Stmt::While(test, body) => {
                self.push_expr(test)?;
                self.push_stmt(body.get())
            }
            Stmt::Do(body, test) => {
                self.push_stmt(body.get())?;
                self.push_expr(test)
            }
            Stmt::For(start, test, step, body) => {
                self.push_head(start, test, step)?;
                self.push_stmt(body.get())
            }
        }
    }

    /// The types between the parentheses of `for` more.
    fn push_head(
        &mut self,
        start: &'f ForStart,
        test: &'f Option<Expr>,
        step: &'f Option<Expr>,
    ) -> Result<(), AllocError>
        ensures { OnOk result (self.new ≡ self.old ++ (start_uses (start_of start.now) ++ (where_there term_uses (option_map term_of test.now) ++ where_there term_uses (option_map term_of step.now)))) }
    {
        self.push_start(start)?;
        self.push_if_some(test)?;
        self.push_if_some(step)
    }

    #[cycle(stmts)]
    fn push_stmts(&mut self, stmts: &'f Items<Stmt>) -> Result<(), AllocError>
        ensures { OnOk result (self.new ≡ self.old ++ statements_uses (statements_of (map statement_of stmts.now))) }
    {
        for stmt in stmts.as_slice() {
            self.push_stmt(stmt)?;
        }
        Ok(())
    }

    fn push_field(&mut self, base: &'f Base, field: &'f Declarator) -> Result<(), AllocError>
        ensures { OnOk result (self.new ≡ self.old ++ field_uses base.now field.now) }
    {
        let stars = stars_of(&field.pointer);
        self.push_pointer(base, stars)?;
        match field.count {
            Some(count) if count.value <= 65536 => {
                self.push(Use::Arrayed(base, stars, count.value as u32))
            }
            Some(_) => Ok(()),
            None => Ok(()),
        }
    }

    fn push_fields(&mut self, fields: &'f Fields) -> Result<(), AllocError>
        ensures { OnOk result (self.new ≡ self.old ++ fields_uses fields.now) }
    {
        for field in fields.declarators.as_slice() {
            self.push_field(&fields.base, field)?;
        }
        Ok(())
    }

    fn push_struct(&mut self, fields: &'f Items<Fields>) -> Result<(), AllocError>
        ensures { OnOk result (self.new ≡ self.old ++ flat_map fields_uses fields.now) }
    {
        for fields in fields.as_slice() {
            self.push_fields(fields)?;
        }
        Ok(())
    }

    fn push_globals(
        &mut self,
        base: &'f Base,
        globals: &'f Items<GlobalDeclarator>,
    ) -> Result<(), AllocError>
        ensures { OnOk result (self.new ≡ self.old ++ flat_map (global_uses base.now) globals.now) }
    {
        for global in globals.as_slice() {
            self.push_pointer(base, stars_of(&global.declarator.pointer))?;
        }
        Ok(())
    }

    fn push_parameters(&mut self, parameters: &'f Items<Parameter>) -> Result<(), AllocError>
        ensures { OnOk result (self.new ≡ self.old ++ flat_map parameter_uses parameters.now) }
    {
        for parameter in parameters.as_slice() {
            self.push(Use::Starred(&parameter.base, stars_of(&parameter.pointer)))?;
        }
        Ok(())
    }

    fn push_result(&mut self, function: &'f Function) -> Result<(), AllocError>
        ensures { OnOk result (self.new ≡ self.old ++ result_uses function.now.result (result_stars function.now.stars)) }
    {
        match &function.result {
            Some(base) => self.push(Use::Starred(base, result_stars(&function.stars))),
            None => Ok(()),
        }
    }

    /// The types of a function's result and parameters more.
    pub(crate) fn push_head_of(&mut self, function: &'f Function) -> Result<(), AllocError>
        ensures { OnOk result (self.new ≡ self.old ++ head_uses (routine_of function.now)) }
    {
        self.push_result(function)?;
        self.push_parameters(&function.parameters)
    }

    /// The types of a function's body more.
    pub(crate) fn push_body_of(&mut self, function: &'f Function) -> Result<(), AllocError>
        ensures { OnOk result (self.new ≡ self.old ++ body_uses (routine_of function.now)) }
    {
        match &function.body {
            Some(body) => self.push_stmts(&body.entries),
            None => Ok(()),
        }
    }

    fn push_item(&mut self, item: &'f Item) -> Result<(), AllocError>
        ensures { OnOk result (self.new ≡ self.old ++ external_uses (external_of item.now)) }
    {
        match item {
            Item::Struct(_, None) => Ok(()),
            Item::Struct(_, Some(fields)) => self.push_struct(fields),
            Item::Globals(base, globals) => self.push_globals(base, globals),
            Item::Function(function) => {
                self.push_head_of(function)?;
                self.push_body_of(function)
            }
        }
    }

    /// All types that a file names.
    pub(crate) fn of(alloc: Global, items: &'f [Item]) -> Result<Uses<'f>, AllocError>
        ensures { IfOk result (λ uses. uses ≡ uses_of (map external_of items.now)) }
    {
        let mut uses = Uses::new(alloc);
        for item in items {
            uses.push_item(item)?;
        }
        Ok(uses)
    }
}

/// How many stars a declarator has.
pub(crate) fn stars_of(pointer: &Option<Pointer>) -> usize
    ensures { result ≡ stars_of pointer.now }
{
    match pointer {
        Some(pointer) => pointer.stars.count,
        None => 0,
    }
}

/// The stars of a function's declarator.
pub fn result_stars(stars: &Option<Stars>) -> usize
    ensures { result ≡ result_stars stars.now }
{
    match stars {
        Some(stars) => stars.count,
        None => 0,
    }
}
