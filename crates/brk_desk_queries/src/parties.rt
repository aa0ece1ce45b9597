//! The names of an account's customer and broker, added to its trades for the view of `statuses`.
//! If one of the two does not exist, the fault is `Store`.

ghost use Rattle.std.specs.Prelude.{◌≡◌};
ghost use Rattle.brk_desk_queries.specs.Parties.{IsAccountStatusWithTrades};
ghost use Rattle.brk_model.specs.StatusView.{broker_name_with_id};
ghost use Rattle.brk_ref.specs.Records.{abstract_account_row};
ghost use Rattle.brk_store_transactions.specs.Holds.{ReadPost};

use brk_money::{CallFault, Id};
use brk_ref::{AccountRow, Name};
use brk_store::Store;
use brk_store_required::require_customer;
use brk_view_rows::{AccountStatus, TradeStatus};
use sqlite::Alter;

fn require_broker_name<S: Alter>(store: &mut Store<S>, id: Id) -> Result<Name, CallFault>
    ensures { ReadPost S.Store store.old store.new result (λ name t. name ≡ broker_name_with_id t id) }
{
    match store.broker(id)? {
        Some(row) => Ok(row.broker.name),
        None => Err(CallFault::Store),
    }
}

// Adds to `trades` the names of the account's customer and broker.
pub(crate) fn status_with_parties<S: Alter>(
    store: &mut Store<S>,
    row: &AccountRow,
    trades: Vec<TradeStatus>,
) -> Result<AccountStatus, CallFault>
    ensures { ReadPost S.Store store.old store.new result (IsAccountStatusWithTrades (abstract_account_row row.now) trades) }
{
    let customer = require_customer(store, row.account.customer)?;
    let broker = require_broker_name(store, row.account.broker)?;
    Ok(AccountStatus {
        last_name: customer.last_name,
        first_name: customer.first_name,
        broker,
        trades,
    })
}
