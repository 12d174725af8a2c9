//! Laws of the definitions, each the contract of a function that does nothing.

ghost use Rattle.std.specs.Prelude.{◌≡◌, ◌↔◌, ℕ, ◌+◌, ◌≤◌, Bool, true, false, List, length, Some, None};
ghost use Rattle.std.specs.List.{AllByRecursion};
ghost use Rattle.kt_typing.specs.Faults.{IsFirst};
ghost use Rattle.kt_typing.specs.declared.fault.Fault.{Fault};
ghost use Rattle.kt_program.specs.Made.{Made, lines_of, block_of};
ghost use Rattle.kt_program.specs.Judgments.{Judgment, made, IsWrong, first_wrong};
ghost use Rattle.kt_syntax.specs.Tree.{Tree, Statement, Definition as Block, Routine, External};
ghost use Rattle.kt_types.specs.Table.{Definition};
ghost use Rattle.kt_tree.specs.Typed.{all_fit};
ghost use Rattle.kt_tree.specs.Version.{Program};
ghost use Rattle.kt_program.specs.ProgramRow.{small, small_program};
ghost use Rattle.kt_program.specs.Programs.{IsTyped, IsFaultOf};
ghost use Rattle.kt_program.specs.FileRows.{IsRefusedFile, IsAcceptedFile, refused_files, accepted_files};
ghost use Rattle.kt_program.specs.MainRows.{IsRefusedInMain, IsAcceptedInMain, refused_in_main, accepted_in_main};
ghost use Rattle.kt_typing.specs.Sound.{IsRight};
ghost use Rattle.kt_program.specs.Functions.{body_of, body_judged};
ghost use Rattle.kt_program.specs.Outside.{whole, environment, HasText};
ghost use Rattle.kt_program.specs.Scopes.{Body, Place};
ghost use Rattle.kt_program.specs.Statements.{statement, locals_in};
ghost use Rattle.kt_program.specs.Rows.{body, noted_body, void_body, IsRefused, IsAccepted, refused, accepted, refused_noted, refused_void, accepted_void};

/// What is judged gives something where nothing is wrong, and else there is a first fault; never both. There is one first
/// fault at most, and it is what is found part by part.
pub fn judgment_law()
    ensures right { (j : Judgment) (m : Made) (f : Fault) → made j ≡ Some m → IsWrong j f → ⊥ }
    ensures wrong { (j : Judgment) → made j ≡ None → (f : Fault) × IsFirst (IsWrong j) f }
    ensures one_first { (j : Judgment) (f g : Fault) → IsFirst (IsWrong j) f → IsFirst (IsWrong j) g → f ≡ g }
    ensures found { (j : Judgment) (f : Fault) → (first_wrong j ≡ Some f) ↔ IsFirst (IsWrong j) f }
{}

/// Worked rows of statements: scopes, locals, loops and `return`.
pub fn statements_law()
    ensures refused { AllByRecursion (IsRefused body) refused }
    ensures accepted { AllByRecursion (IsAccepted body) accepted }
    ensures refused_noted { AllByRecursion (IsRefused noted_body) refused_noted }
    ensures refused_void { AllByRecursion (IsRefused void_body) refused_void }
    ensures accepted_void { AllByRecursion (IsAccepted void_body) accepted_void }
{}

/// Worked rows of whole files, of statements in `main` of one file, and of a file with its typed program.
pub fn files_law()
    ensures refused { AllByRecursion IsRefusedFile refused_files }
    ensures accepted { AllByRecursion IsAcceptedFile accepted_files }
    ensures refused_in_main { AllByRecursion IsRefusedInMain refused_in_main }
    ensures accepted_in_main { AllByRecursion IsAcceptedInMain accepted_in_main }
    ensures typed { IsTyped small small_program }
{}

/// A file has at most one typed program. It has one exactly where it has no fault, and else one first fault: at the least place,
/// and there of the earliest kind.
pub fn program_law()
    ensures one { (t : Tree) (p q : Program) → IsTyped t p → IsTyped t q → p ≡ q }
    ensures faultless { (t : Tree) (p : Program) (f : Fault) → IsTyped t p → IsFaultOf t f → ⊥ }
    ensures faulty { (t : Tree) → ((p : Program) → IsTyped t p → ⊥) → (f : Fault) × IsFirst (IsFaultOf t) f }
    ensures one_first { (t : Tree) (f g : Fault) → IsFirst (IsFaultOf t) f → IsFirst (IsFaultOf t) g → f ≡ g }
{}

/// What comes of a statement that is right fits where it stands, by the judgment of typed trees: where names stand for what their
/// trees give, and the body has all locals that the statement declares. So it is in every file that has the type `char *`, and what
/// comes of the body of each of its functions fits into that function.
pub fn fits_law()
    ensures fit { (b : Body) (p : Place) (a : Statement) (m : Made) → IsRight b.environment → p.next + locals_in a ≤ length b.environment.scope.locals
        → made (statement b p a) ≡ Some m → all_fit b.environment.scope b.result p.in_loop (block_of (lines_of m)) ≡ true }
    ensures names { (xs : List External) (defined : List Definition) (locals : List ℕ) (noted : Bool) → HasText (environment (whole xs) defined locals noted)
        → IsRight (environment (whole xs) defined locals noted) }
    ensures body { (xs : List External) (defined : List Definition) (r : Routine) (d : Block) (m : Made) → HasText (body_of (whole xs) defined r).environment → r.body ≡ Some d
        → made (body_judged (body_of (whole xs) defined r) r.parameters r.body) ≡ Some m
        → all_fit (body_of (whole xs) defined r).environment.scope (body_of (whole xs) defined r).result false (block_of (lines_of m)) ≡ true }
{}
