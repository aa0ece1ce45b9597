//! Theorems: the plans of cancels, feeds and results implement their commands.

ghost use Rattle.std.specs.Prelude.{[], ℕ, List, Option};
ghost use Rattle.brk_money.specs.declared.status.Status.{Status};
ghost use Rattle.brk_lots.specs.Sources.{EqualsLots};
ghost use Rattle.brk_lots.specs.declared.lot.Lot.{Lot};
ghost use Rattle.brk_model.specs.Base.{Base};
ghost use Rattle.brk_model.specs.Tables.{Tables};
ghost use Rattle.brk_ref_orders.specs.declared.tick.Tick.{Tick};
ghost use Rattle.brk_trade_plans.specs.Feed.{SymbolState, states_of_quotes};
ghost use Rattle.brk_trade_plans.specs.declared.quote.Quote.{Quote};
ghost use Rattle.brk_trade.specs.declared.result_found.ResultPlanFacts.{ResultPlanFacts};
ghost use Rattle.brk_trade_theorems.specs.ImplementedPlans.{CancelPlanImplementsCommand, FeedPlanImplementsCommand};
ghost use Rattle.brk_trade_theorems.specs.ImplementedPlans.{QuotesExtendToTick, ResultPlanImplementsCommand};
ghost use Rattle.brk_trade_theorems.specs.ResultPlans.{PlanResultPrecondition};
ghost use Rattle.brk_trade_theorems.specs.TradePlans.{AreQuotesOfTicks, PlanCancelPrecondition, PlanFeedPrecondition};

/// Proves, under `PlanCancelPrecondition`, that a cancel is refused as in the model, and that its
/// plan implements the command.
pub fn cancel_plans_implement_commands()
    ensures { (base : Base) (id : ℕ) (found : Option Status) (last : Option ℕ) (now : ℕ)
        → PlanCancelPrecondition base id found last now → CancelPlanImplementsCommand base id found last now }
{}

/// Proves, under `PlanFeedPrecondition`, that a feed is refused as in the model, and that its plan
/// implements the command.
pub fn feed_plans_implement_commands()
    ensures { (base : Base) (ticks : List Tick) (quotes : List SymbolState) (last : Option ℕ) (now : ℕ)
        → PlanFeedPrecondition base ticks quotes last now → FeedPlanImplementsCommand base ticks quotes last now }
{}

/// Proves that the quotes that a feed needs can be read tick by tick, each only at the first tick
/// of its symbol.
pub fn quotes_are_read_tick_by_tick()
    ensures none { (t : Tables) (all : List Tick) → AreQuotesOfTicks t all [] [] }
    ensures further { (t : Tables) (all ticks : List Tick) (tick : Tick) (quotes : List Quote)
        → AreQuotesOfTicks t all ticks (states_of_quotes quotes) → QuotesExtendToTick t all ticks tick quotes }
{}

/// Proves, under `PlanResultPrecondition`, that a result is refused as in the model, and that its
/// plan implements the command.
pub fn result_plans_implement_commands()
    ensures { (base : Base) (id price : ℕ) (found : Option ResultPlanFacts) (lots : List Lot) (last : Option ℕ) (now : ℕ)
        → PlanResultPrecondition base id found (EqualsLots lots) last now → ResultPlanImplementsCommand base id price found lots last now }
{}
