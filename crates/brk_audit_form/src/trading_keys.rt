//! The sort keys of the tables that trades and movements write.

ghost use Rattle.brk_model.specs.Keys as keys;
ghost use Rattle.brk_ref.specs.Rows as of;

use crate::keys::{Keyed, compare_ids, compare_texts};
use brk_ref::{
    CashRow, HistoryRow, HoldingRow, LotChange, OldCashRow, RequestRow, SettlementRow, SummaryRow,
    TradeRow,
};
use std::cmp::Ordering;

impl Keyed for TradeRow {
    ghost key = { λ row. keys.trade_key (of.abstract_trade_row row) };

    fn compare_keys(&self, other: &TradeRow) -> Ordering {
        compare_ids(self.id, other.id)
    }
}

impl Keyed for HistoryRow {
    ghost key = { λ row. keys.history_key (of.abstract_history_row row) };

    fn compare_keys(&self, other: &HistoryRow) -> Ordering {
        compare_ids(self.trade, other.trade).then(self.status.code().cmp(other.status.code()))
    }
}

impl Keyed for RequestRow {
    ghost key = { λ row. keys.request_key (of.abstract_request_row row) };

    fn compare_keys(&self, other: &RequestRow) -> Ordering {
        compare_ids(self.trade, other.trade)
    }
}

impl Keyed for HoldingRow {
    ghost key = { λ row. keys.holding_key (of.abstract_holding_row row) };

    fn compare_keys(&self, other: &HoldingRow) -> Ordering {
        compare_ids(self.trade, other.trade)
    }
}

impl Keyed for SummaryRow {
    ghost key = { λ row. keys.summary_key (of.abstract_summary_row row) };

    fn compare_keys(&self, other: &SummaryRow) -> Ordering {
        compare_ids(self.account, other.account).then(compare_texts(&self.symbol, &other.symbol))
    }
}

impl Keyed for LotChange {
    ghost key = { λ row. keys.holding_history_key (of.abstract_lot_change_row row) };

    fn compare_keys(&self, other: &LotChange) -> Ordering {
        compare_ids(self.lot, other.lot).then(compare_ids(self.trade, other.trade))
    }
}

impl Keyed for SettlementRow {
    ghost key = { λ row. keys.settlement_key (of.abstract_settlement_row row) };

    fn compare_keys(&self, other: &SettlementRow) -> Ordering {
        compare_ids(self.trade, other.trade)
    }
}

impl Keyed for OldCashRow {
    ghost key = { λ row. keys.cash_transaction_key (of.abstract_old_cash_row row) };

    fn compare_keys(&self, other: &OldCashRow) -> Ordering {
        compare_ids(self.trade, other.trade)
    }
}

impl Keyed for CashRow {
    ghost key = { λ row. keys.cash_move_key (of.abstract_cash_row row) };

    fn compare_keys(&self, other: &CashRow) -> Ordering {
        self.id.get().cmp(&other.id.get())
    }
}
