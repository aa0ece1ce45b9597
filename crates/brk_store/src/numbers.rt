//! Reads of the balance of an account and of the totals in the row of a broker.

ghost use Rattle.std.specs.Prelude.{IfSome, IfNone, ℕ, ◌≤◌, pos, ◌≡◌, ◌==◌, Err, OnErr, find, option_map};
ghost use Rattle.brk_money.specs.declared.fault.Fault.TheVariants as fault;
ghost use Rattle.brk_trade_rows.specs.declared.trade_count.TheConstants.TradeCount;
ghost use Rattle.brk_money.specs.declared.amount.TheConstants.Amount;
ghost use Rattle.brk_store_transactions.specs.Holds.{ReadPost};
ghost use Rattle.brk_store.specs.Numbers.{AreBrokerTotals};

use crate::Store;
use brk_money::{Cents, Fault, Id, StoreFailed};
use brk_ref::BrokerRow;
use brk_trade_rows::{Amount, BrokerTotals, TradeCount};
use sqlite::Alter;

// Returns `None` only if a total is out of the range of its type.
fn totals_in_broker_row(row: &BrokerRow) -> Option<BrokerTotals>
    ensures none { IfNone result ((n : ℕ) → pos n ≡ row.now.trades → n ≤ TradeCount.GREATEST → row.now.commissions ≤ Amount.GREATEST → ⊥) }
    ensures some { IfSome result (λ numbers. (pos numbers.trades ≡ row.now.trades) × (numbers.commissions ≡ row.now.commissions)) }
{
    if row.trades < 0 {
        return None;
    }
    let Some(trades) = TradeCount::new(row.trades as u64) else {
        return None;
    };
    let Some(commissions) = Amount::new(row.commissions) else {
        return None;
    };
    Some(BrokerTotals {
        trades,
        commissions,
    })
}

impl<S: Alter> Store<S> {
    /// Returns the totals of a broker: completed trades (B_NUM_TRADES), and commissions in cents
    /// (B_COMM_TOTAL). Fails also if one is out of the range of its type.
    pub fn read_broker_totals(&mut self, broker: Id) -> Result<Option<BrokerTotals>, StoreFailed>
        ensures read { ReadPost S.Store self.old self.new result (λ numbers t. AreBrokerTotals numbers (find (λ r. r.id == broker) t.brokers)) }
    {
        let Some(row) = self.broker(broker)? else {
            return Ok(None);
        };
        match totals_in_broker_row(&row) {
            Some(numbers) => Ok(Some(numbers)),
            None => Err(StoreFailed),
        }
    }

    /// `read_broker_totals` for a caller that returns a `Fault`.
    pub fn broker_numbers(&mut self, broker: Id) -> Result<Option<BrokerTotals>, Fault>
        ensures read { ReadPost S.Store self.old self.new result (λ numbers t. AreBrokerTotals numbers (find (λ r. r.id == broker) t.brokers)) }
        ensures fault { OnErr result (result ≡ Err fault.Store) }
    {
        Ok(self.read_broker_totals(broker)?)
    }

    /// Returns the balance of an account, in cents (CA_BAL).
    pub fn read_balance(&mut self, account: Id) -> Result<Option<Cents>, StoreFailed>
        ensures read { ReadPost S.Store self.old self.new result (λ balance t. balance ≡ option_map (λ r. r.balance) (find (λ r. r.id == account) t.accounts)) }
    {
        match self.account(account)? {
            Some(row) => Ok(Some(row.balance)),
            None => Ok(None),
        }
    }

    /// `read_balance` for a caller that returns a `Fault`.
    pub fn balance_of(&mut self, account: Id) -> Result<Option<Cents>, Fault>
        ensures read { ReadPost S.Store self.old self.new result (λ balance t. balance ≡ option_map (λ r. r.balance) (find (λ r. r.id == account) t.accounts)) }
        ensures fault { OnErr result (result ≡ Err fault.Store) }
    {
        Ok(self.read_balance(account)?)
    }
}
