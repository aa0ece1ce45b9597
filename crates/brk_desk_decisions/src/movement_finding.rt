//! Reads of the facts that decide on a deposit or a withdrawal.

ghost use Rattle.brk_trade_theorems.specs.MovePlans.{MovementFactsMatchTables};
ghost use Rattle.brk_store_transactions.specs.Holds.{ReadPost};

use brk_money::CallFault;
use brk_ref_orders::Movement;
use brk_store::Store;
use brk_trade::MovementPlanFacts;
use sqlite::Alter;

// Fails with `Store` also if no number is left for a cash row.
pub(crate) fn movement_facts<S: Alter>(
    store: &mut Store<S>,
    movement: &Movement,
) -> Result<MovementPlanFacts, CallFault>
    ensures { ReadPost S.Store store.old store.new result (λ found t. MovementFactsMatchTables t movement.now found) }
{
    let balance = store.read_balance(movement.account)?;
    let (next, has_all_movements) = store.next_movement_number()?;
    Ok(MovementPlanFacts {
        balance,
        has_all_movements,
        next,
    })
}
