//! Laws of the definitions, each the contract of a function that does nothing.

ghost use Rattle.std.specs.Prelude.{◌≡◌, ◌↔◌, ℕ, true, Some, None};
ghost use Rattle.std.specs.List.{AllByRecursion};
ghost use Rattle.kt_typing.specs.Answers.{IsRefused, IsAccepted};
ghost use Rattle.kt_typing.specs.Faults.{IsFirst};
ghost use Rattle.kt_typing.specs.First.{first_fault};
ghost use Rattle.kt_typing.specs.Forms.{Form, typed, IsFault};
ghost use Rattle.kt_typing.specs.Operands.{Operand};
ghost use Rattle.kt_grammar.specs.Tree.{Term};
ghost use Rattle.kt_tree.specs.Typed.{kind, is_condition};
ghost use Rattle.std.specs.Option.{is_some};
ghost use Rattle.kt_typing.specs.Environment.{Environment};
ghost use Rattle.kt_typing.specs.Sound.{HasType, IsRight, IsSound};
ghost use Rattle.kt_typing.specs.Terms.{form, effect, condition, conversion};
ghost use Rattle.kt_typing.specs.declared.standing.Use.{Use};
ghost use Rattle.kt_typing.specs.Pairs.{two_faulty_parts, own_faults};
ghost use Rattle.kt_typing.specs.Rows.{c_file, rule_code, refused, accepted, refused_in_rules, accepted_in_rules};
ghost use Rattle.kt_typing.specs.declared.fault.Fault.{Fault};

/// What has a type has no fault, and what has no type has a first one: at the least place, and there of the earliest kind.
/// There is one first fault at most, and it is what is found part by part.
pub fn typing_law()
    ensures faultless { (e : Form) (x : Operand) (f : Fault) → typed e ≡ Some x → IsFault e f → ⊥ }
    ensures faulty { (e : Form) → typed e ≡ None → (f : Fault) × IsFirst (IsFault e) f }
    ensures one_first { (e : Form) (f g : Fault) → IsFirst (IsFault e) f → IsFirst (IsFault e) g → f ≡ g }
    ensures found { (e : Form) (f : Fault) → (first_fault e ≡ Some f) ↔ IsFirst (IsFault e) f }
{}

/// Worked rows: of two faulty parts, of operators and calls whose parts are faulty, of parentheses and of null.
pub fn rows_law()
    ensures refused { AllByRecursion (IsRefused c_file) refused }
    ensures two_faulty_parts { AllByRecursion (IsRefused c_file) two_faulty_parts }
    ensures own_faults { AllByRecursion (IsRefused c_file) own_faults }
    ensures accepted { AllByRecursion (IsAccepted c_file) accepted }
    ensures refused_in_rules { AllByRecursion (IsRefused rule_code) refused_in_rules }
    ensures accepted_in_rules { AllByRecursion (IsAccepted rule_code) accepted_in_rules }
{}

/// Where names and words stand for what their trees give, the tree of each expression that has a type gives that type, by the
/// judgment of typed trees. Where it stands as a statement the tree gives a value or nothing, as a condition a scalar, and
/// where it converts to a type a value of that type.
pub fn sound_law()
    ensures sound { (env : Environment) (u : Use) (e : Term) (x : Operand) → IsRight env → typed (form env u e) ≡ Some x → IsSound env.scope x }
    ensures statement { (env : Environment) (e : Term) (x : Operand) → IsRight env → typed (effect env e) ≡ Some x → is_some (kind env.scope x.tree) ≡ true }
    ensures condition { (env : Environment) (e : Term) (x : Operand) → IsRight env → typed (condition env e) ≡ Some x → is_condition env.scope x.tree ≡ true }
    ensures converted { (env : Environment) (t at : ℕ) (e : Term) (x : Operand) → IsRight env → typed (conversion env t at e) ≡ Some x → HasType env.scope t x.tree }
{}
