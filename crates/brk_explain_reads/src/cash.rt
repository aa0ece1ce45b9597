//! The number and the sum of the cash rows of an account before a stamp, which are walked one at a
//! time.

ghost use Rattle.std.specs.Prelude.{◌≡◌, ◌+◌, ◌+ℤ◌, IfOk};
ghost use Rattle.brk_explain_reads.specs.Found.{IsCashSumBeforeStamp};
ghost use Rattle.brk_store_transactions.specs.Holds.{ReadPost};

use brk_money::{CallFault, Cents, Id, Stamp, StoreFailed, Wide};
use brk_ref::CashRow;
use brk_store::{Store, Visitor, WalkError};
use sqlite::Alter;

/// The number of some cash rows, and the sum of their amounts, in cents.
#[derive(Clone, Copy)]
pub struct CashSum {
    pub rows: u64,
    pub total: Wide,
}

fn sum_with_row(sum: &CashSum, amount: Cents) -> Result<CashSum, StoreFailed>
    ensures { IfOk result (λ more. (more.rows ≡ sum.now.rows + 1) × (more.total ≡ sum.now.total +ℤ amount)) }
{
    let Some(rows) = sum.rows.checked_add(1) else {
        return Err(StoreFailed);
    };
    let Some(total) = sum.total.get().checked_add(i128::from(amount.get())) else {
        return Err(StoreFailed);
    };
    Ok(CashSum {
        rows,
        total: Wide::new(total),
    })
}

/// A visitor that counts the cash rows with stamps before `until`, and adds up their amounts.
#[derive(Drop)]
pub struct EarlierCashSum {
    pub until: Stamp,
    pub sum: CashSum,
}

impl Visitor<CashRow, StoreFailed> for EarlierCashSum {
    ghost use Rattle.brk_explain_reads.specs.Earlier.{AddsEarlierCashRow};

    ghost ready = { λ _. Unit {0} };

    ghost leads = { λ _ _. Unit {0} };

    ghost takes = { AddsEarlierCashRow };

    ghost stops = { λ _ _ _ _. Unit {0} };

    /// Skips a row at or after `until`. After an error the sum is unchanged, which no clause
    /// states.
    fn visit(&mut self, item: &CashRow) -> Result<(), StoreFailed> {
        if item.stamp.get() < self.until.get() {
            self.sum = sum_with_row(&self.sum, item.amount)?;
        }
        Ok(())
    }

    ghost reflexive = { λ _. tt };

    ghost transitive = { λ _ _ _ _ _. tt };
}

fn fault_of_walk(stop: WalkError<StoreFailed>) -> CallFault {
    match stop {
        WalkError::Failed(fault) => fault,
        WalkError::Cause(_) => CallFault::Store,
    }
}

// The walk includes the rows at `until`, and the visitor skips them.
pub(crate) fn cash_sum_before<S: Alter>(
    store: &mut Store<S>,
    account: Id,
    until: Stamp,
) -> Result<CashSum, CallFault>
    ensures { ReadPost S.Store store.old store.new result (λ sum t. IsCashSumBeforeStamp t account until sum) }
{
    let mut earlier = EarlierCashSum {
        until,
        sum: CashSum {
            rows: 0,
            total: Wide::new(0),
        },
    };
    match store.visit_cash_rows::<StoreFailed, EarlierCashSum>(
        account,
        Stamp::nearest(0),
        until,
        &mut earlier,
    ) {
        Ok(()) => Ok(earlier.sum),
        Err(stop) => Err(fault_of_walk(stop)),
    }
}
