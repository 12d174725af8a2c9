//! Laws of the definitions, each the contract of a function that does nothing.

ghost use Rattle.std.specs.Prelude.{◌≡◌, ◌↔◌, Some, None, List};
ghost use Rattle.std.specs.List.{AllByRecursion};
ghost use Rattle.kt_tree.specs.Version.{Program};
ghost use Rattle.kt_typing.specs.declared.fault.Fault.{Fault};
ghost use Rattle.kt_typing.specs.Faults.{IsFirst};
ghost use Rattle.xf_plan.specs.Plan.{Plan};
ghost use Rattle.xf_syntax.specs.Tree.{Rule};
ghost use Rattle.xf_rules.specs.BodyRows.{refused_bodies};
ghost use Rattle.xf_rules.specs.CrossRows.{refused_between, accepted_between};
ghost use Rattle.xf_rules.specs.Examples.{wide, nodes, aged_nodes, kept, kept_longer};
ghost use Rattle.xf_rules.specs.Judgments.{Judgment, made, IsWrong, first_wrong};
ghost use Rattle.xf_rules.specs.Made.{Made};
ghost use Rattle.xf_rules.specs.PlanRows.{accepted};
ghost use Rattle.xf_rules.specs.Plans.{IsPlanOf, IsFaultOf, Refusal, NeedsRule, IsRefusedBy, IsRefused, IsAccepted, IsRefusedBetween, IsAcceptedBetween};
ghost use Rattle.xf_rules.specs.SideRows.{refused_sides, needing};
ghost use Rattle.xf_rules.specs.WholePlans.{age_rule, aging, kept_rules, keeping};

/// What is judged gives something where nothing is wrong, and else there is a first fault; never both. There is one first
/// fault at most, and it is what is found part by part.
pub fn judgment_law()
    ensures right { (j : Judgment) (m : Made) (f : Fault) → made j ≡ Some m → IsWrong j f → ⊥ }
    ensures wrong { (j : Judgment) → made j ≡ None → (f : Fault) × IsFirst (IsWrong j) f }
    ensures one_first { (j : Judgment) (f g : Fault) → IsFirst (IsWrong j) f → IsFirst (IsWrong j) g → f ≡ g }
    ensures found { (j : Judgment) (f : Fault) → (first_wrong j ≡ Some f) ↔ IsFirst (IsWrong j) f }
{}

/// For two versions a rule file gives at most one plan. It gives one exactly where nothing refuses it, and else one thing does: its
/// first fault, at the least place and there of the earliest kind; or, where it has no fault, the first thing that needs a rule.
pub fn plan_law()
    ensures one { (old new : Program) (rules : List Rule) (p q : Plan) → IsPlanOf old new rules p → IsPlanOf old new rules q → p ≡ q }
    ensures faultless { (old new : Program) (rules : List Rule) (p : Plan) (f : Fault) → IsPlanOf old new rules p → IsFaultOf old new rules f → ⊥ }
    ensures unrefused { (old new : Program) (rules : List Rule) (p : Plan) (r : Refusal) → IsPlanOf old new rules p → IsRefusedBy old new rules r → ⊥ }
    ensures refused { (old new : Program) (rules : List Rule) → ((p : Plan) → IsPlanOf old new rules p → ⊥) → (r : Refusal) × IsRefusedBy old new rules r }
    ensures one_refusal { (old new : Program) (rules : List Rule) (r s : Refusal) → IsRefusedBy old new rules r → IsRefusedBy old new rules s → r ≡ s }
{}

/// Worked rows: files that are refused, files that give a plan, and files with all of their plan.
pub fn rows_law()
    ensures sides { AllByRecursion (IsRefused wide wide) refused_sides }
    ensures bodies { AllByRecursion (IsRefused wide wide) refused_bodies }
    ensures needing { AllByRecursion (IsRefused wide wide) needing }
    ensures accepted { AllByRecursion (IsAccepted wide wide) accepted }
    ensures refused_between { AllByRecursion IsRefusedBetween refused_between }
    ensures accepted_between { AllByRecursion IsAcceptedBetween accepted_between }
    ensures aging { IsPlanOf nodes aged_nodes age_rule aging }
    ensures keeping { IsPlanOf kept kept_longer kept_rules keeping }
{}
