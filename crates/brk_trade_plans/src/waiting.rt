//! The row changes of a pending trade that is submitted or canceled.

ghost use Rattle.std.specs.Prelude.{◌≡◌, ◌++◌, OnOk};
ghost use Rattle.brk_trade_plans.specs.Waiting.{row_changes_of_status_after_pending};

use brk_money::{Id, Stamp, Status};
use brk_ref::HistoryRow;
use brk_trade_rows::Change;
use std::alloc::AllocError;

// Sets the status and the stamp, adds a history row and deletes the trade's request.
pub(crate) fn append_status_after_pending(
    trade: Id,
    status: Status,
    stamp: Stamp,
    changes: &mut Vec<Change>,
) -> Result<(), AllocError>
    ensures changes { OnOk result (changes.new.items ≡ changes.old.items ++ row_changes_of_status_after_pending trade status stamp) }
{
    let row = HistoryRow {
        trade,
        status,
        stamp,
    };
    changes.push(Change::SetStatus {
        trade,
        status,
        stamp,
    })?;
    changes.push(Change::AddHistory(row))?;
    changes.push(Change::RemoveRequest(trade))?;
    Ok(())
}
