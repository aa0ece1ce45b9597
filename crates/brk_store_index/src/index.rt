//! The index: made of rows, updated by row changes, and read by group.

ghost use Rattle.std.specs.Prelude.{◌≡◌, ◌==◌, ℕ, IfOk, IfSome, OnOk, bytes_eq, find, map, option_map};
ghost use Rattle.std.specs.Option.{option_copied};
ghost use Rattle.brk_money.specs.Kinds.{is_same_trade_status};
ghost use Rattle.brk_money.specs.declared.status.Status.TheVariants.{Submitted};
ghost use Rattle.brk_trade_rows.specs.Changes.{tables_after_change, tables_after_changes};
ghost use Rattle.brk_ref.specs.Records.{abstract_account_row, abstract_last_trade_row};
ghost use Rattle.brk_ref.specs.Rows.{abstract_cash_row, abstract_holding_row, abstract_lot_change_row, abstract_summary_row, abstract_trade_row};
ghost use Rattle.brk_model.specs.Lists.{total_by};
ghost use Rattle.brk_model.specs.Tables.{Tables};
ghost use Rattle.brk_store_index.specs.Ages.{InsertsAgeIf, ages_in};
ghost use Rattle.brk_store_index.specs.Groups.{ages_of_number};
ghost use Rattle.brk_store_index.specs.Index.{HasRowsOf, IsIndexOf, abstract_group, ages_at, number_of_lots};
ghost use Rattle.brk_store_index.specs.Parts.{AreAccountsOf, AreCashRowsOf, AreLotChangesOf, age_of_cash_row};
ghost use Rattle.brk_store_index.specs.Prices.{market_value_of_summary};
ghost use Rattle.brk_store_index.specs.Terms.{AreTermsOf};

use crate::age::RowAge;
use crate::by_number::AgesByNumber;
use crate::group::Group;
use crate::lost::IndexLost;
use crate::lots::LotGroups;
use crate::prices::LastPrices;
use crate::terms::Terms;
use crate::trades::TradeGroups;
use brk_money::{Price, Status, Wide};
use brk_ref::{
    AccountRow, CashRow, HoldingRow, LastTrade, LotChange, SummaryRow, Symbol, TradeRow,
};
use brk_trade_rows::Change;
use std::alloc::Global;
use std::collections::VecDeque;

/// The ages of the rows of each group (`Group`), the oldest first, the last price of each security,
/// and the terms of orders.
#[derive(Drop)]
pub struct RowIndex {
    lots: LotGroups,
    trades: TradeGroups,
    accounts: AgesByNumber,
    changes: AgesByNumber,
    cash: AgesByNumber,
    prices: LastPrices,
    terms: Terms,
}

fn is_submitted(status: Status) -> bool
    ensures { result ≡ is_same_trade_status status Submitted }
{
    status == Status::Submitted
}

// Fails also if two accounts of a customer have one id.
fn accounts_of_rows(alloc: Global, rows: &[AccountRow]) -> Result<AgesByNumber, IndexLost>
    ensures { IfOk result (λ accounts. AreAccountsOf accounts (map abstract_account_row rows.now)) }
{
    let mut accounts = AgesByNumber::new(alloc);
    for row in rows {
        accounts.insert(row.account.customer.get(), RowAge::of_id(row.account.id))?;
    }
    Ok(accounts)
}

// Fails also if a trade changed a lot twice.
fn lot_changes_of_rows(alloc: Global, rows: &[LotChange]) -> Result<AgesByNumber, IndexLost>
    ensures { IfOk result (λ changes. AreLotChangesOf changes (map abstract_lot_change_row rows.now)) }
{
    let mut changes = AgesByNumber::new(alloc);
    for row in rows {
        changes.insert(row.trade.get(), RowAge::of_id(row.lot))?;
    }
    Ok(changes)
}

// Fails also if the account has the row.
fn insert_cash_row(groups: &mut AgesByNumber, row: &CashRow) -> Result<(), IndexLost>
    ensures { OnOk result ((account : ℕ) → InsertsAgeIf ((abstract_cash_row row.now).account == account)
        (ages_of_number groups.old account) (age_of_cash_row (abstract_cash_row row.now)) (ages_of_number groups.new account)) }
{
    let age = RowAge::of_cash_row(row)?;
    groups.insert(row.account.get(), age)
}

// Fails also if two cash rows of an account have one stamp and one number.
fn cash_of_rows(alloc: Global, rows: &[CashRow]) -> Result<AgesByNumber, IndexLost>
    ensures { IfOk result (λ cash. AreCashRowsOf cash (map abstract_cash_row rows.now)) }
{
    let mut cash = AgesByNumber::new(alloc);
    for row in rows {
        insert_cash_row(&mut cash, row)?;
    }
    Ok(cash)
}

impl RowIndex {
    /// Creates the index of all rows of HOLDING, TRADE, CUSTOMER_ACCOUNT, HOLDING_HISTORY, CASH_MOVE
    /// and LAST_TRADE, with the terms of orders. Fails also if two rows of a table have one key, or if
    /// a cash row has a number greater than any id.
    pub fn of_rows(
        alloc: Global,
        lots: &[HoldingRow],
        trades: &[TradeRow],
        accounts: &[AccountRow],
        changes: &[LotChange],
        cash: &[CashRow],
        last_trades: &[LastTrade],
        terms: Terms,
    ) -> Result<RowIndex, IndexLost>
        ensures { IfOk result (λ index. (t : Tables)
            → HasRowsOf t (map abstract_holding_row lots.now) (map abstract_trade_row trades.now) (map abstract_account_row accounts.now) (map abstract_lot_change_row changes.now)
            (map abstract_cash_row cash.now) (map abstract_last_trade_row last_trades.now)
            → AreTermsOf terms t → IsIndexOf index t) }
    {
        Ok(RowIndex {
            lots: LotGroups::of_rows(alloc, lots)?,
            trades: TradeGroups::of_rows(alloc, trades)?,
            accounts: accounts_of_rows(alloc, accounts)?,
            changes: lot_changes_of_rows(alloc, changes)?,
            cash: cash_of_rows(alloc, cash)?,
            prices: LastPrices::of_rows(alloc, last_trades)?,
            terms,
        })
    }

    fn update_one(&mut self, change: &Change) -> Result<(), IndexLost>
        ensures { OnOk result ((t : Tables) → IsIndexOf self.old t → IsIndexOf self.new (tables_after_change change.now t)) }
    {
        match change {
            Change::AddLot(lot) => self.lots.add(lot),
            Change::RemoveLot(trade) => self.lots.remove(*trade),
            Change::AddTrade(trade) => self.trades.add(trade),
            Change::SetStatus {
                trade,
                status,
                stamp,
            } => self
                .trades
                .set_status(*trade, is_submitted(*status), *stamp),
            Change::CompleteTrade { trade, stamp, .. } => {
                self.trades.set_status(*trade, false, *stamp)
            }
            Change::AddAccount(account) => self
                .accounts
                .insert(account.customer.get(), RowAge::of_id(account.id)),
            Change::AddLotChange(change) => self
                .changes
                .insert(change.trade.get(), RowAge::of_id(change.lot)),
            Change::AddMove(row) => insert_cash_row(&mut self.cash, row),
            Change::AddLastTrade(last) => self.prices.add(last),
            Change::SetLastTrade(last) => {
                self.prices.set(last);
                Ok(())
            }
            Change::AddCharge(charge) => self.terms.add_charge(charge),
            Change::AddBand(band) => self.terms.add_band(band),
            Change::AddTaxRate(tax) => self.terms.add_tax(tax),
            Change::AddCustomerTax(pays) => self.terms.add_customer_tax(pays),
            Change::AddCustomer(customer) => self.terms.add_customer(customer),
            Change::AddSecurity(security) => self.terms.add_security(security),
            _ => Ok(()),
        }
    }

    /// Changes the index as `changes` change the rows.
    pub fn update(&mut self, changes: &[Change]) -> Result<(), IndexLost>
        ensures { OnOk result ((t : Tables) → IsIndexOf self.old t → IsIndexOf self.new (tables_after_changes changes.now t)) }
    {
        for change in changes {
            self.update_one(change)?;
        }
        Ok(())
    }

    pub fn number_of_lots(&self) -> usize
        ensures { result ≡ number_of_lots self.now }
    {
        self.lots.len()
    }

    pub fn number_of_trades(&self) -> usize {
        self.trades.len()
    }

    pub fn allocator(&self) -> Global {
        self.accounts.alloc
    }

    pub fn terms(&self) -> &Terms
        ensures { result.now ≡ self.now.terms }
    {
        &self.terms
    }

    /// Returns the last price of the security, in cents.
    pub fn last_price(&self, symbol: &Symbol) -> Option<Price>
        ensures { (t : Tables) → IsIndexOf self.now t → result ≡ option_map (λ r. r.price) (find (λ r. bytes_eq r.symbol symbol.now) t.last_trades) }
    {
        self.prices.price(symbol)
    }

    /// Returns the market value of holdings at last prices, in cents; shares that were sold short
    /// count below 0. Returns `None` if a security has no last price, or if the value overflows.
    pub fn market_value(&self, rows: &[SummaryRow]) -> Option<Wide>
        ensures { (t : Tables) → IsIndexOf self.now t
            → IfSome result (λ value. value ≡ total_by (market_value_of_summary t) (map abstract_summary_row rows.now)) }
    {
        self.prices.market_value(rows)
    }

    /// Returns the ages of the rows of a group, the oldest first.
    pub fn ages(&self, group: &Group<'_>) -> Option<&VecDeque<RowAge>>
        ensures { ages_in (option_copied result) ≡ ages_at self.now (abstract_group group.now) }
    {
        match group {
            Group::Position(account, symbol) => self.lots.positions.ages(account.get(), symbol),
            Group::LotsOfAccount(account) => self.lots.accounts.ages(account.get()),
            Group::TradesOfAccount(account) => self.trades.accounts.ages(account.get()),
            Group::TradesOfSymbol(symbol) => self.trades.ages_of_symbol(symbol),
            Group::SubmittedTrades => Some(&self.trades.submitted),
            Group::AccountsOfCustomer(customer) => self.accounts.ages(customer.get()),
            Group::CashRowsOfAccount(account) => self.cash.ages(account.get()),
            Group::LotChangesOfTrade(trade) => self.changes.ages(trade.get()),
        }
    }
}
