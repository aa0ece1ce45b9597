ghost use Rattle.std.specs.Prelude.{◌≡◌, ◌∷◌, ◌++◌, [], IfOk, OnErr, Err, MatchResult, MatchOption, Some, map};
ghost use Rattle.brk_model.specs.Tests.{first_refusal};
ghost use Rattle.brk_money.specs.declared.fault.Fault.TheVariants.{Memory};
ghost use Rattle.brk_trade_rows.specs.Changes.{tables_after_change, tables_with_last_stamp};
ghost use Rattle.brk_trade_plans.specs.Reference.{later_stamp_check};
ghost use Rattle.brk_trade_plans.specs.Update as spec;
ghost use Rattle.brk_trade_plans.specs.Update.{IsUpdatePlan, tables_with_toggled_cash_text, tables_with_toggled_cash_type, count_of_updated_trades};
ghost use Rattle.brk_trade_plans.specs.Update.{tables_with_updated_executor_name, update_checks, table_updates_of_text_update};

use crate::corrected::{CashText, SettlementText, TextUpdate};
use crate::plan::Plan;
use crate::reply::Reply;
use crate::wording::{toggle_cash_text, toggle_cash_type, toggle_executor};
use brk_money::{Planned, Refusal, Stamp, stamp_after};
use brk_ref::{Name, TradeRow};
use brk_ref_orders::Update;
use brk_trade_rows::Change;
use std::alloc::{AllocError, Global};

// Returns the refusal of an update whose target does not exist.
fn target_refusal(update: &Update) -> Refusal
    ensures { result ≡ spec.missing_target_refusal update.now }
{
    match update {
        Update::Executors(_) => Refusal::NoTrade,
        Update::CashTypes { .. } => Refusal::NoAccount,
        Update::CashNames { .. } => Refusal::NoSecurity,
    }
}

fn executor_change(alloc: Global, trade: &TradeRow) -> Result<Change, AllocError>
    ensures change { IfOk result (λ change. tables_after_change change ≡ tables_with_updated_executor_name trade.now) }
{
    let executor = toggle_executor(alloc, trade.executor.as_str())?;
    Ok(Change::SetExecutor {
        trade: trade.id,
        executor,
    })
}

fn cash_type_change(settled: &SettlementText) -> Change
    ensures { tables_after_change result ≡ tables_with_toggled_cash_type settled.now }
{
    Change::SetCashType {
        trade: settled.trade,
        cash_type: toggle_cash_type(settled.is_cash, settled.cash_type),
    }
}

fn cash_name_change(alloc: Global, security: &Name, paid: &CashText) -> Result<Change, AllocError>
    ensures change { IfOk result (λ change. tables_after_change change ≡ tables_with_toggled_cash_text security.now paid.now) }
{
    let name = toggle_cash_text(alloc, paid, security)?;
    Ok(Change::SetCashName {
        trade: paid.trade,
        name,
    })
}

fn executor_changes(alloc: Global, trades: &[TradeRow]) -> Result<Vec<Change>, AllocError>
    ensures changes { IfOk result (λ changes. map tables_after_change changes.items ≡ map tables_with_updated_executor_name trades.now) }
{
    let mut changes = Vec::new(alloc);
    for trade in trades {
        let change = executor_change(alloc, trade)?;
        changes.push(change)?;
    }
    Ok(changes)
}

fn cash_type_changes(alloc: Global, settled: &[SettlementText]) -> Result<Vec<Change>, AllocError>
    ensures changes { IfOk result (λ changes. map tables_after_change changes.items ≡ map tables_with_toggled_cash_type settled.now) }
{
    let mut changes = Vec::new(alloc);
    for one in settled {
        changes.push(cash_type_change(one))?;
    }
    Ok(changes)
}

fn cash_name_changes(
    alloc: Global,
    security: &Name,
    paid: &[CashText],
) -> Result<Vec<Change>, AllocError>
    ensures changes { IfOk result (λ changes. map tables_after_change changes.items ≡ map (tables_with_toggled_cash_text security.now) paid.now) }
{
    let mut changes = Vec::new(alloc);
    for one in paid {
        let change = cash_name_change(alloc, security, one)?;
        changes.push(change)?;
    }
    Ok(changes)
}

fn text_changes(alloc: Global, found: &TextUpdate) -> Result<Vec<Change>, AllocError>
    ensures changes { IfOk result (λ changes. map tables_after_change changes.items ≡ table_updates_of_text_update found.now) }
{
    match found {
        TextUpdate::Executors(trades) => executor_changes(alloc, trades),
        TextUpdate::CashTypes(settled) => cash_type_changes(alloc, settled),
        TextUpdate::CashNames(security, paid) => cash_name_changes(alloc, security, paid),
    }
}

fn update_changes(
    alloc: Global,
    found: &TextUpdate,
    stamp: Stamp,
) -> Result<Vec<Change>, AllocError>
    ensures changes { IfOk result (λ changes. map tables_after_change changes.items ≡ table_updates_of_text_update found.now ++ tables_with_last_stamp stamp ∷ []) }
{
    let mut changes = text_changes(alloc, found)?;
    changes.push(Change::SetLastStamp(stamp))?;
    Ok(changes)
}

fn count_updated(found: &TextUpdate) -> usize
    ensures { result ≡ count_of_updated_trades found.now }
{
    match found {
        TextUpdate::Executors(trades) => trades.len(),
        TextUpdate::CashTypes(settled) => settled.len(),
        TextUpdate::CashNames(_, paid) => paid.len(),
    }
}

/// Plans a text update (Trade-Update): replaces one text of each selected trade, but changes no
/// status and no stamp of a trade. `found` has these trades, or is `None` if the target of the
/// update does not exist, `last` is the stamp of the last accepted command, if any, and `now` the
/// clock reading.
///
/// Refuses with `NoTrade`, `NoAccount` or `NoSecurity` if `found` is `None`, as the update names
/// trades, an account or a security, and otherwise with `ClockEnd` if no stamp later than `last`
/// exists. Fails with `Memory` only.
pub fn plan_update(
    alloc: Global,
    update: &Update,
    found: Option<TextUpdate>,
    last: Option<Stamp>,
    now: Stamp,
) -> Planned<Plan>
    ensures planned { IfOk result (λ planned. MatchResult planned
        (λ plan. MatchOption found ⊥ (λ found. IsUpdatePlan found last now plan))
        (λ refusal. first_refusal (update_checks update.now found ++ later_stamp_check last now ∷ []) ≡ Some refusal)) }
    ensures fault { OnErr result (result ≡ Err Memory) }
{
    let Some(found) = found else {
        return Ok(Err(target_refusal(update)));
    };
    let Some(stamp) = stamp_after(last, now) else {
        return Ok(Err(Refusal::ClockEnd));
    };
    let changes = update_changes(alloc, &found, stamp)?;
    Ok(Ok(Plan {
        changes,
        reply: Reply::Changed(stamp, count_updated(&found)),
    }))
}
