//! The checks of the rows that trades write, except cash rows.

ghost use Rattle.std.specs.Prelude.{◌≡◌};
ghost use Rattle.brk_model.specs.Form as form;
ghost use Rattle.brk_ref.specs.Rows as of;
ghost use Rattle.brk_trade_rows.specs.Sheets.{abstract_sheets};
ghost use Rattle.brk_audit_form.specs.Conditions.{HasSortedKeys};

use crate::limits::{
    is_valid_amount, is_valid_cents, is_valid_charge, is_valid_id, is_valid_price, is_valid_qty,
    is_valid_stamp,
};
use crate::references::{
    find_trade, has_account, has_broker, has_completion, has_security, has_trade,
};
use crate::rows::Formed;
use brk_money::{Day, Stamp, Status};
use brk_ref::{
    CashType, HistoryRow, HoldingRow, LotChange, RequestRow, SettlementRow, SummaryRow, TradeRow,
};
use brk_trade_rows::{Schema, Sheets, completion_due_day};

fn has_price_matching_completion(sheets: &Sheets, row: &TradeRow) -> bool
    requires { HasSortedKeys sheets.now }
    ensures { result ≡ form.has_price_matching_completion (abstract_sheets sheets.now) (of.abstract_trade_row row.now) }
{
    match row.price {
        Some(price) => has_completion(sheets, row.id) && is_valid_price(price),
        None => !has_completion(sheets, row.id),
    }
}

// Returns true also for a status other than `Completed`, which has no due day. The calendar ends at
// 9999-12-31.
fn is_due_day_in_calendar(rule: Option<Day>, status: Status, stamp: Stamp) -> bool
    ensures { result ≡ form.settles_in_calendar_if_completed rule status stamp }
{
    status != Status::Completed || completion_due_day(rule, stamp).is_some()
}

fn is_cash_type_of_trade(is_cash: bool, word: CashType) -> bool
    ensures { result ≡ form.is_cash_type_of_trade is_cash (of.cash_type_text word) }
{
    match word {
        CashType::CashAccount | CashType::Cash => is_cash,
        CashType::Margin | CashType::MarginAccount => !is_cash,
    }
}

impl Formed for TradeRow {
    ghost form = { λ schema tables row. form.is_well_formed_trade_row schema tables (of.abstract_trade_row row) };

    // The condition `Status` checks the status; an executor may be any text.
    fn is_valid_row(&self, schema: Schema, sheets: &Sheets) -> bool {
        is_valid_id(self.id)
            && is_valid_qty(schema, self.qty)
            && is_valid_price(self.bid)
            && is_valid_charge(self.charge)
            && is_valid_amount(self.commission)
            && is_valid_amount(self.tax)
            && is_valid_stamp(sheets, self.stamp)
            && has_security(sheets, &self.symbol)
            && has_account(sheets, self.account)
            && has_price_matching_completion(sheets, self)
    }
}

impl Formed for HistoryRow {
    ghost form = { λ schema tables row. form.is_well_formed_history_row tables (of.abstract_history_row row) };

    fn is_valid_row(&self, _schema: Schema, sheets: &Sheets) -> bool {
        has_trade(sheets, self.trade)
            && is_valid_stamp(sheets, self.stamp)
            && is_due_day_in_calendar(sheets.rule, self.status, self.stamp)
    }
}

impl Formed for RequestRow {
    ghost form = { λ schema tables row. form.is_well_formed_request_row schema tables (of.abstract_request_row row) };

    fn is_valid_row(&self, schema: Schema, sheets: &Sheets) -> bool {
        has_trade(sheets, self.trade)
            && has_security(sheets, &self.symbol)
            && is_valid_qty(schema, self.qty)
            && is_valid_price(self.bid)
            && has_broker(sheets, self.broker)
    }
}

impl Formed for HoldingRow {
    ghost form = { λ schema tables row. form.is_well_formed_holding_row tables (of.abstract_holding_row row) };

    // The condition `Lots` checks the quantity.
    fn is_valid_row(&self, _schema: Schema, sheets: &Sheets) -> bool {
        has_trade(sheets, self.trade)
            && has_account(sheets, self.account)
            && has_security(sheets, &self.symbol)
            && is_valid_stamp(sheets, self.stamp)
            && is_valid_price(self.price)
    }
}

impl Formed for SummaryRow {
    ghost form = { λ schema tables row. form.is_well_formed_summary_row schema tables (of.abstract_summary_row row) };

    fn is_valid_row(&self, schema: Schema, sheets: &Sheets) -> bool {
        has_account(sheets, self.account)
            && has_security(sheets, &self.symbol)
            && self.qty.unsigned_abs() <= schema.greatest_summary_quantity()
    }
}

impl Formed for LotChange {
    ghost form = { λ schema tables row. form.is_well_formed_holding_history_row tables (of.abstract_lot_change_row row) };

    // The condition `History` checks the quantities.
    fn is_valid_row(&self, _schema: Schema, sheets: &Sheets) -> bool {
        has_trade(sheets, self.lot) && has_trade(sheets, self.trade)
    }
}

impl Formed for SettlementRow {
    ghost form = { λ schema tables row. form.is_well_formed_settlement_row tables (of.abstract_settlement_row row) };

    fn is_valid_row(&self, _schema: Schema, sheets: &Sheets) -> bool {
        let Some(trade) = find_trade(sheets, self.trade) else {
            return false;
        };
        is_cash_type_of_trade(trade.is_cash, self.cash_type)
            && self.due_day.get() <= Day::GREATEST
            && is_valid_cents(self.amount)
    }
}
