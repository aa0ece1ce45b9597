//! Reads of a trade's account, its customer and its broker.

ghost use Rattle.std.specs.Prelude.{IfSome};
ghost use Rattle.brk_desk_decisions.specs.ResultFactReads.{PartyFactsMatchTables};
ghost use Rattle.brk_model.specs.Joins.{account_row_with_id};
ghost use Rattle.brk_store_transactions.specs.Holds.{ReadPost};
ghost use Rattle.brk_ref.specs.Records.{abstract_account_row};

use crate::terms::require_tax_rate_sum;
use brk_money::{CallFault, Id};
use brk_ref::AccountRow;
use brk_store::Store;
use brk_store_required::{require_account, require_broker, require_customer};
use brk_trade::TradeParties;
use sqlite::Alter;
use std::alloc::Global;

// Fails with `Store` also if the customer, one of the customer's taxes or the broker does not
// exist, or the tax rates total more than the greatest rate.
fn parties_of_row<S: Alter>(
    alloc: Global,
    store: &mut Store<S>,
    row: AccountRow,
) -> Result<TradeParties, CallFault>
    ensures { ReadPost S.Store store.old store.new result (λ parties t. PartyFactsMatchTables t (abstract_account_row row) parties) }
{
    let account = &row.account;
    let customer = require_customer(store, account.customer)?;
    let rates = require_tax_rate_sum(alloc, store, account.customer)?;
    let broker = require_broker(store, account.broker)?;
    Ok(TradeParties {
        account: row,
        broker,
        tier: customer.tier,
        rates,
    })
}

// Fails with `Store` also if the account does not exist.
pub(crate) fn party_facts<S: Alter>(
    alloc: Global,
    store: &mut Store<S>,
    account: Id,
) -> Result<TradeParties, CallFault>
    ensures { ReadPost S.Store store.old store.new result (λ parties t. IfSome (account_row_with_id t account) (λ a. PartyFactsMatchTables t a parties)) }
{
    let row = require_account(store, account)?;
    let parties = parties_of_row(alloc, store, row)?;
    Ok(parties)
}
