//! Laws of what is judged, each the contract of a function that does nothing.

ghost use Rattle.std.specs.Prelude.{◌≡◌, ℕ, ◌≤◌, Bool, true, false, List, map, slice_get, Some, None};
ghost use Rattle.kt_grammar.specs.declared.tree.Base.{Base};
ghost use Rattle.kt_syntax.specs.declared.tree.GlobalDeclarator.{GlobalDeclarator};
ghost use Rattle.kt_syntax.specs.Tree.{External, FunctionDeclared, Routine};
ghost use Rattle.kt_types.specs.declared.kinds.FieldDecl.{FieldDecl};
ghost use Rattle.kt_types.specs.Table.{Definition, fields_of};
ghost use Rattle.kt_typing.specs.Environment.{Environment};
ghost use Rattle.kt_typing.specs.First.{earlier};
ghost use Rattle.kt_program.specs.Declarators.{extent_fault, extent_of};
ghost use Rattle.kt_program.specs.Functions.{body_of, function};
ghost use Rattle.kt_program.specs.Gathered.{struct_names};
ghost use Rattle.kt_program.specs.Globals.{global};
ghost use Rattle.kt_program.specs.Judgments.{Judgment, first_wrong, made};
ghost use Rattle.kt_program.specs.Outside.{Whole, environment};
ghost use Rattle.kt_program.specs.Statements.{absent};
ghost use Rattle.kt_program.specs.FileTable.{are_distinct, can_define};
ghost use Rattle.kt_program.specs.Scopes.{contains};
ghost use Rattle.kt_program.specs.Structs.{is_array_count, inner_extent_fault, struct};
ghost use Rattle.kt_program.specs.Views.{Field, all_fields};
ghost use Rattle.kt_declarations.specs.Fields.{all_cells, AreLaid};
ghost use Rattle.std.specs.List.{list_all};
ghost use Rattle.kt_grammar.specs.declared.tree.Name.{Name};
ghost use Rattle.kt_syntax.specs.declared.tree.Fields.{Fields};
ghost use Rattle.kt_declarations.specs.Heads.{head_judged, inside};
ghost use Rattle.kt_declarations.specs.Met.{AreFunctions, AreNamed, HasStructs, routine_names};
ghost use Rattle.kt_declarations.specs.declared.functions.Functions.{Functions};
ghost use Rattle.kt_declarations.specs.Views.{FitsLong, Tells};

/// What is judged of a function is what is judged of its head, over its parameters and its body: where nothing is wrong with the
/// head, the function gives what these give, and else its first fault is the earlier of both. The structs that heads of a file name
/// are structs of the file. What is kept of declarations has their names.
pub fn heads_law()
    ensures function { (w : Whole) (structs : List Definition) (globals : List (List ℕ)) (before : List Routine) (r : Routine) → function w structs globals before r ≡ head_judged (body_of w structs r).environment w globals before r (inside w structs r) }
    ensures first { (env : Environment) (w : Whole) (globals : List (List ℕ)) (before : List Routine) (r : Routine) (j : Judgment) → first_wrong (head_judged env w globals before r j) ≡ earlier (first_wrong (head_judged env w globals before r absent)) (first_wrong j) }
    ensures made { (env : Environment) (w : Whole) (globals : List (List ℕ)) (before : List Routine) (r : Routine) (j : Judgment) → first_wrong (head_judged env w globals before r absent) ≡ None → made (head_judged env w globals before r j) ≡ made j }
    ensures named { (f : Functions) (structs : List (List ℕ)) (rs : List Routine) → AreFunctions f structs rs → AreNamed f (routine_names rs) }
    ensures structs { (xs : List External) (i : ℕ) (r : Routine) → slice_get xs i ≡ Some (FunctionDeclared r) → HasStructs (struct_names xs) r }
{}

/// A global with which nothing is wrong has what `global_decl` asks for, and environments of a file tell its globals.
pub fn globals_law()
    ensures extent { (env : Environment) (names : List (List ℕ)) (cells : ℕ) (base : Base) (g : GlobalDeclarator) → first_wrong (global env names cells base g) ≡ None → extent_fault env (extent_of g.declarator.pointer) ≡ None }
    ensures count { (env : Environment) (names : List (List ℕ)) (cells : ℕ) (base : Base) (g : GlobalDeclarator) → first_wrong (global env names cells base g) ≡ None → is_array_count g.declarator.count ≡ true }
    ensures fits { (env : Environment) (names : List (List ℕ)) (cells : ℕ) (base : Base) (g : GlobalDeclarator) → first_wrong (global env names cells base g) ≡ None → FitsLong g.initial }
    ensures tells { (w : Whole) (structs : List Definition) (locals : List ℕ) (noted : Bool) → Tells (environment w structs locals noted) w }
{}

/// The definition of a struct with which nothing is wrong is the first of its name, and has fields of distinct names, each of a
/// right number of elements, which are few enough together. By such fields a struct that is not yet defined can be, where each has
/// its name and a type of so many cells as it is counted with.
pub fn structs_law()
    ensures new { (env : Environment) (defined : List (List ℕ)) (n : Name) (fs : List Fields) → first_wrong (struct env defined n fs) ≡ None → contains defined n.word ≡ false }
    ensures distinct { (env : Environment) (defined : List (List ℕ)) (n : Name) (fs : List Fields) → first_wrong (struct env defined n fs) ≡ None → are_distinct (map (λ x. x.declarator.name.word) (all_fields fs)) ≡ true }
    ensures counts { (env : Environment) (defined : List (List ℕ)) (n : Name) (fs : List Fields) → first_wrong (struct env defined n fs) ≡ None → list_all (λ x. is_array_count x.declarator.count) (all_fields fs) ≡ true }
    ensures cells { (env : Environment) (defined : List (List ℕ)) (n : Name) (fs : List Fields) → first_wrong (struct env defined n fs) ≡ None → all_cells env (all_fields fs) ≤ 65536 }
    ensures extents { (env : Environment) (defined : List (List ℕ)) (n : Name) (fs : List Fields) (i : ℕ) (x : Field) → first_wrong (struct env defined n fs) ≡ None → slice_get (all_fields fs) i ≡ Some x → inner_extent_fault env (all_fields fs) (extent_of x.declarator.pointer) ≡ None }
    ensures can { (env : Environment) (defined : List (List ℕ)) (n : Name) (fs : List Fields) (number : ℕ) (ds : List FieldDecl) → first_wrong (struct env defined n fs) ≡ None → fields_of env.scope.types number ≡ None → AreLaid env (all_fields fs) ds → can_define env.scope.types number ds ≡ true }
{}
