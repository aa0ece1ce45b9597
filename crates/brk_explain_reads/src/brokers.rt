//! The facts that the explanation of a broker reads, and the walk over the trades of its accounts.

ghost use Rattle.std.specs.Prelude.{◌≡◌, ◌==◌};
ghost use Rattle.std.specs.List.{list_any};
ghost use Rattle.brk_ref.specs.Rows.{abstract_trade_row};
ghost use Rattle.brk_model_explain.specs.BrokerLines.{completed_trades_of_broker};
ghost use Rattle.brk_explain_rows.specs.Details.{AreDetailsOfBroker};
ghost use Rattle.brk_store_transactions.specs.Holds.{ReadPost};
ghost use Rattle.brk_store.specs.Walked.{WalkPost};

use brk_explain_rows::BrokerDetails;
use brk_money::{CallFault, Id};
use brk_ref::TradeRow;
use brk_store::{Store, Visitor, WalkError};
use sqlite::Alter;
use std::alloc::Global;

/// Returns the row of a broker and the number of its accounts, or `None` if the broker does not
/// exist.
pub fn gather_broker<S: Alter>(
    alloc: Global,
    store: &mut Store<S>,
    broker: Id,
) -> Result<Option<BrokerDetails>, CallFault>
    ensures { ReadPost S.Store store.old store.new result (AreDetailsOfBroker broker) }
{
    let Some(row) = store.broker(broker)? else {
        return Ok(None);
    };
    let accounts = store.broker_account_ids(alloc, broker)?;
    Ok(Some(BrokerDetails {
        broker: row,
        accounts: accounts.len(),
    }))
}

fn has_account(accounts: &[Id], account: Id) -> bool
    ensures { result ≡ list_any (λ a. a == account) accounts.now }
{
    accounts.contains(&account)
}

/// A visitor that passes the trades of some accounts to another visitor, and skips all others.
#[derive(Drop)]
pub struct AccountFilter<'a, V> {
    pub accounts: &'a [Id],
    pub visitor: &'a mut V,
}

impl<E, V: Visitor<TradeRow, E>> Visitor<TradeRow, E> for AccountFilter<'_, V> {
    ghost use Rattle.std.specs.Prelude.{◌≡◌, ◌==◌, refl, true};
    ghost use Rattle.std.specs.List.{list_any};
    ghost use Rattle.std.proofs.Common.{◌∙◌};
    ghost use Rattle.brk_explain_reads.specs.Skipping.{VisitorTakesRecordOnlyIf};

    ghost ready = { λ p. V.ready p.visitor.now };

    ghost leads = { λ p q. (q.visitor.ghost_name ≡ p.visitor.ghost_name) × V.leads p.visitor.now q.visitor.now };

    ghost takes = { λ p r q. (q.accounts.now ≡ p.accounts.now)
        × VisitorTakesRecordOnlyIf (list_any (λ a. a == r.account) p.accounts.now) V.takes p.visitor.now r q.visitor.now };

    ghost stops = { λ p r e q. (list_any (λ a. a == r.account) p.accounts.now ≡ true) × V.stops p.visitor.now r e q.visitor.now };

    /// Skips the trades of other accounts.
    fn visit(&mut self, item: &TradeRow) -> Result<(), E> {
        if has_account(self.accounts, item.account) {
            return self.visitor.visit(item);
        }
        Ok(())
    }

    ghost reflexive = { λ p. (refl, V.reflexive p.visitor.now) };

    ghost transitive = { λ p q r a b. (b.0 ∙ a.0, V.transitive p.visitor.now q.visitor.now r.visitor.now a.1 b.1) };
}

/// Passes the completed trades of a broker's accounts to a visitor, sorted by the stamp of
/// completion and then by id, both ascending. Does not check that the broker exists. Fails with
/// `Cause` and the visitor's error, or with `Failed` after a prefix of the trades.
pub fn visit_broker_trades<S: Alter, E, V: Visitor<TradeRow, E>>(
    alloc: Global,
    store: &mut Store<S>,
    broker: Id,
    visitor: &mut V,
) -> Result<(), WalkError<E>>
    requires ready { V.ready visitor.old }
    ensures ready { V.ready visitor.new }
    ensures leads { V.leads visitor.old visitor.new }
    ensures walked { WalkPost S.Store store.old store.new abstract_trade_row (λ t. completed_trades_of_broker t broker)
        V.takes V.stops visitor.old visitor.new result }
{
    // The value is not needed: the call shows that the id is at least 1.
    let _least = broker.get();
    let accounts = match store.broker_account_ids(alloc, broker) {
        Ok(accounts) => accounts,
        Err(fault) => return Err(WalkError::Failed(fault)),
    };
    let mut under = AccountFilter {
        accounts: accounts.as_slice(),
        visitor,
    };
    store.visit_completed_trades::<E, AccountFilter<'_, V>>(&mut under)
}
