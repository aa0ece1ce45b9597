//! Theorems: the plans and the estimates of orders implement their commands and queries, in a base
//! that satisfies the books invariant.

ghost use Rattle.std.specs.Prelude.{◌≡◌, ◌∷◌, ◌++◌, [], ℕ, Err, List, None, Ok, Option, Some};
ghost use Rattle.brk_trade.specs.Estimates.{AreOrderTermsInBase};
ghost use Rattle.brk_trade_plans.specs.Replies.{estimate_from_model};
ghost use Rattle.brk_trade_plans.specs.declared.estimate.Estimate.{Estimate};
ghost use Rattle.brk_lots.specs.Sources.{EqualsLots};
ghost use Rattle.brk_lots.specs.declared.lot.Lot.{Lot};
ghost use Rattle.brk_model.specs.Ask.{ask};
ghost use Rattle.brk_model.specs.Base.{Base};
ghost use Rattle.brk_model.specs.Commands.{PlaceOrder};
ghost use Rattle.brk_model.specs.Orders.{estimate};
ghost use Rattle.brk_model.specs.Queries.{EstimateOf};
ghost use Rattle.brk_model.specs.Rows.{estimate_fields};
ghost use Rattle.brk_model.specs.Sheets.{sheets};
ghost use Rattle.brk_model.specs.Step.{step};
ghost use Rattle.brk_model.specs.Tests.{first_refusal, refusal_of_command};
ghost use Rattle.brk_money.specs.declared.refusal.Refusal.{Refusal};
ghost use Rattle.brk_ref_orders.specs.Records.{abstract_order};
ghost use Rattle.brk_ref_orders.specs.declared.order.Order.{Order};
ghost use Rattle.brk_trade.specs.Orders.{EstimatesCheckedOrder, IsOrderPlan, order_checks, terms_of_order, free_trade_id_check};
ghost use Rattle.brk_trade_plans.specs.Reference.{later_stamp_check};
ghost use Rattle.brk_trade_plans.specs.Replies.{abstract_estimate};
ghost use Rattle.brk_trade.specs.declared.order.OrderPlanFacts.{OrderPlanFacts};
ghost use Rattle.brk_trade_plans.specs.declared.plan.Plan.{Plan};
ghost use Rattle.brk_trade_books.specs.Books.{BooksInvariant};
ghost use Rattle.brk_trade_theorems.specs.OrderPlans.{OrderPositionLotsSatisfy, EstimateFactsMatchTables, PlanOrderPrecondition};
ghost use Rattle.brk_trade_theorems.specs.Plans.{PlanImplementsCommand};

/// Proves that the terms of an order from facts of the tables are its terms in the base, except the
/// shares held.
pub fn terms_from_order_facts_match_the_base()
    ensures { (base : Base) (order : Order) (found : OrderPlanFacts) → BooksInvariant base → EstimateFactsMatchTables (sheets base) order found
        → first_refusal (order_checks found) ≡ None → AreOrderTermsInBase base (abstract_order order) (terms_of_order order found) }
{}

/// Proves, under `PlanOrderPrecondition`, that an order is refused as in the model, and that its
/// plan implements the command.
pub fn order_plans_implement_commands()
    ensures first { (base : Base) (order : Order) (found : OrderPlanFacts) (last : Option ℕ) (now : ℕ) → PlanOrderPrecondition base order found last now
        → first_refusal (order_checks found ++ free_trade_id_check found.last_trade ∷ later_stamp_check last now ∷ [])
        ≡ refusal_of_command base now (PlaceOrder (abstract_order order)) }
    ensures refused { (base : Base) (order : Order) (found : OrderPlanFacts) (last : Option ℕ) (now : ℕ) (refusal : Refusal)
        → PlanOrderPrecondition base order found last now
        → first_refusal (order_checks found ++ free_trade_id_check found.last_trade ∷ later_stamp_check last now ∷ []) ≡ Some refusal
        → step base now (PlaceOrder (abstract_order order)) ≡ Err refusal }
    ensures done { (base : Base) (order : Order) (found : OrderPlanFacts) (lots : List Lot) (last : Option ℕ) (now : ℕ) (plan : Plan)
        → PlanOrderPrecondition base order found last now
        → OrderPositionLotsSatisfy (sheets base) order (EqualsLots lots) → IsOrderPlan order found (EqualsLots lots) last now plan
        → PlanImplementsCommand base now (PlaceOrder (abstract_order order)) plan }
{}

/// Proves that an estimate is refused as its query in the model, and otherwise equals the estimate
/// of the model.
pub fn estimates_equal_model_estimates()
    ensures refused { (base : Base) (order : Order) (found : OrderPlanFacts) (refusal : Refusal) → BooksInvariant base
        → EstimateFactsMatchTables (sheets base) order found
        → first_refusal (order_checks found) ≡ Some refusal → ask base (EstimateOf (abstract_order order)) ≡ Err refusal }
    ensures estimate { (base : Base) (order : Order) (found : OrderPlanFacts) (lots : List Lot) (e : Estimate) → BooksInvariant base
        → EstimateFactsMatchTables (sheets base) order found
        → OrderPositionLotsSatisfy (sheets base) order (EqualsLots lots) → EstimatesCheckedOrder order found (EqualsLots lots) e
        → e ≡ estimate_from_model (estimate base (abstract_order order)) }
    ensures answered { (base : Base) (order : Order) (found : OrderPlanFacts) (lots : List Lot) (e : Estimate) → BooksInvariant base
        → EstimateFactsMatchTables (sheets base) order found
        → OrderPositionLotsSatisfy (sheets base) order (EqualsLots lots) → EstimatesCheckedOrder order found (EqualsLots lots) e
        → ask base (EstimateOf (abstract_order order)) ≡ Ok (estimate_fields (abstract_estimate e) ∷ []) }
{}
