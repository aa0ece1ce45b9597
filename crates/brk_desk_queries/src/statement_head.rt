//! The head of an account's statement.

ghost use Rattle.brk_desk_queries.specs.Heads.{IsStatementHeadOfAccount};
ghost use Rattle.brk_store_transactions.specs.Holds.{ReadPost};

use brk_money::{CallFault, Cents, Id, Wide};
use brk_ref::Name;
use brk_store::Store;
use brk_store_required::read_holdings_value;
use sqlite::Alter;
use std::alloc::Global;

/// The figures of an account's statement that are not rows.
#[derive(Drop)]
pub struct Head {
    /// The name of the account.
    pub name: Name,
    /// The opening balance of the account, in cents.
    pub opening: Cents,
    /// The market value of the holdings of the account at last prices, in cents; shares sold short
    /// count below 0.
    pub holdings: Wide,
}

/// Returns the head of an account's statement, or `None` if the account does not exist. Fails with
/// `Store` also if a held symbol has no last price, or if the sum overflows.
pub fn account_head<S: Alter>(
    alloc: Global,
    store: &mut Store<S>,
    account: Id,
) -> Result<Option<Head>, CallFault>
    ensures { ReadPost S.Store store.old store.new result (IsStatementHeadOfAccount account) }
{
    let Some(row) = store.account(account)? else {
        return Ok(None);
    };
    let holdings = read_holdings_value(alloc, store, account)?;
    Ok(Some(Head {
        name: row.account.name,
        opening: row.account.opening,
        holdings,
    }))
}
