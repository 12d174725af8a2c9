ghost use Rattle.std.specs.Prelude.{◌≡◌, ℕ, List};
ghost use Rattle.kt_words.specs.Orders.{IsOrderOf};
ghost use Rattle.kt_words.specs.declared.order.Order.{Order};
ghost use Rattle.kt_words.specs.declared.order.Program.{Program};

/// Words have at most one order.
pub fn one_order_law()
    ensures { (program : Program) (words : List (List ℕ)) (one other : Order)
        → IsOrderOf program words one → IsOrderOf program words other → one ≡ other }
{}
