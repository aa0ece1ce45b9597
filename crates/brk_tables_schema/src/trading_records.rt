//! The decoding of the rows of trades, holdings, settlements and cash, column by column.

ghost use Rattle.std.specs.Prelude.{◌∷◌, []};
ghost use Rattle.brk_ref.specs.Records.{abstract_last_trade_row};
ghost use Rattle.brk_ref.specs.Rows.{abstract_old_cash_row, abstract_history_row, abstract_holding_row, abstract_lot_change_row, abstract_cash_row};
ghost use Rattle.brk_ref.specs.Rows.{abstract_request_row, abstract_settlement_row, abstract_summary_row, abstract_trade_row};
ghost use Rattle.brk_tables_schema.specs.Cells.{cash_cells, history_cells, holding_cells, holding_history_cells, last_trade_cells, move_cells};
ghost use Rattle.brk_tables_schema.specs.Cells.{natural_as_value, request_cells, settlement_cells, summary_cells, trade_cells};
ghost use Rattle.brk_tables_schema.specs.Formed.{cash_column_cell_checks, history_column_cell_checks, holding_column_cell_checks};
ghost use Rattle.brk_tables_schema.specs.Formed.{holding_history_column_cell_checks, is_id_cell, last_trade_column_cell_checks};
ghost use Rattle.brk_tables_schema.specs.Formed.{move_column_cell_checks, request_column_cell_checks, settlement_column_cell_checks};
ghost use Rattle.brk_tables_schema.specs.Formed.{summary_column_cell_checks, trade_column_cell_checks};

use crate::cells::{
    amount_cell, cash_row_id_cell, cash_type_cell, cents_cell, charge_cell, check_column_count,
    day_cell, flag_cell, formed_text_cell, id_cell, integer_cell, optional_id_cell,
    optional_price_cell, price_cell, qty_cell, stamp_cell, status_cell, text_cell, trade_type_cell,
    volume_cell,
};
use crate::decode_error::DecodeError;
use crate::record::Record;
use brk_money::Id;
use brk_ref::{
    CashRow, HistoryRow, HoldingRow, LastTrade, LotChange, OldCashRow, RequestRow, SettlementRow,
    SummaryRow, TradeRow,
};
use sqlite::Row;

impl Record for HoldingRow {
    ghost cells = { λ r. holding_cells (abstract_holding_row r) };

    ghost forms = { holding_column_cell_checks };

    fn from_row(row: &Row) -> Result<HoldingRow, DecodeError> {
        check_column_count(row, 6)?;
        Ok(HoldingRow {
            trade: id_cell(row, 0)?,
            account: id_cell(row, 1)?,
            symbol: formed_text_cell(row, 2)?,
            stamp: stamp_cell(row, 3)?,
            price: price_cell(row, 4)?,
            qty: integer_cell(row, 5)?,
        })
    }
}

impl Record for SummaryRow {
    ghost cells = { λ r. summary_cells (abstract_summary_row r) };

    ghost forms = { summary_column_cell_checks };

    fn from_row(row: &Row) -> Result<SummaryRow, DecodeError> {
        check_column_count(row, 3)?;
        Ok(SummaryRow {
            account: id_cell(row, 0)?,
            symbol: formed_text_cell(row, 1)?,
            qty: integer_cell(row, 2)?,
        })
    }
}

impl Record for LastTrade {
    ghost cells = { λ r. last_trade_cells (abstract_last_trade_row r) };

    ghost forms = { last_trade_column_cell_checks };

    fn from_row(row: &Row) -> Result<LastTrade, DecodeError> {
        check_column_count(row, 4)?;
        Ok(LastTrade {
            symbol: formed_text_cell(row, 0)?,
            stamp: stamp_cell(row, 1)?,
            price: price_cell(row, 2)?,
            volume: volume_cell(row, 3)?,
        })
    }
}

impl Record for RequestRow {
    ghost cells = { λ r. request_cells (abstract_request_row r) };

    ghost forms = { request_column_cell_checks };

    fn from_row(row: &Row) -> Result<RequestRow, DecodeError> {
        check_column_count(row, 6)?;
        Ok(RequestRow {
            trade: id_cell(row, 0)?,
            kind: trade_type_cell(row, 1)?,
            symbol: formed_text_cell(row, 2)?,
            qty: qty_cell(row, 3)?,
            bid: price_cell(row, 4)?,
            broker: id_cell(row, 5)?,
        })
    }
}

impl Record for TradeRow {
    ghost cells = { λ r. trade_cells (abstract_trade_row r) };

    ghost forms = { trade_column_cell_checks };

    fn from_row(row: &Row) -> Result<TradeRow, DecodeError> {
        check_column_count(row, 15)?;
        Ok(TradeRow {
            id: id_cell(row, 0)?,
            stamp: stamp_cell(row, 1)?,
            status: status_cell(row, 2)?,
            kind: trade_type_cell(row, 3)?,
            is_cash: flag_cell(row, 4)?,
            symbol: formed_text_cell(row, 5)?,
            qty: qty_cell(row, 6)?,
            bid: price_cell(row, 7)?,
            account: id_cell(row, 8)?,
            executor: text_cell(row, 9)?,
            price: optional_price_cell(row, 10)?,
            charge: charge_cell(row, 11)?,
            commission: amount_cell(row, 12)?,
            tax: amount_cell(row, 13)?,
            is_lifo: flag_cell(row, 14)?,
        })
    }
}

impl Record for HistoryRow {
    ghost cells = { λ r. history_cells (abstract_history_row r) };

    ghost forms = { history_column_cell_checks };

    fn from_row(row: &Row) -> Result<HistoryRow, DecodeError> {
        check_column_count(row, 3)?;
        Ok(HistoryRow {
            trade: id_cell(row, 0)?,
            status: status_cell(row, 1)?,
            stamp: stamp_cell(row, 2)?,
        })
    }
}

impl Record for LotChange {
    ghost cells = { λ r. holding_history_cells (abstract_lot_change_row r) };

    ghost forms = { holding_history_column_cell_checks };

    fn from_row(row: &Row) -> Result<LotChange, DecodeError> {
        check_column_count(row, 4)?;
        Ok(LotChange {
            lot: id_cell(row, 0)?,
            trade: id_cell(row, 1)?,
            before: integer_cell(row, 2)?,
            after: integer_cell(row, 3)?,
        })
    }
}

impl Record for SettlementRow {
    ghost cells = { λ r. settlement_cells (abstract_settlement_row r) };

    ghost forms = { settlement_column_cell_checks };

    fn from_row(row: &Row) -> Result<SettlementRow, DecodeError> {
        check_column_count(row, 4)?;
        Ok(SettlementRow {
            trade: id_cell(row, 0)?,
            cash_type: cash_type_cell(row, 1)?,
            due_day: day_cell(row, 2)?,
            amount: cents_cell(row, 3)?,
        })
    }
}

impl Record for OldCashRow {
    ghost cells = { λ r. cash_cells (abstract_old_cash_row r) };

    ghost forms = { cash_column_cell_checks };

    fn from_row(row: &Row) -> Result<OldCashRow, DecodeError> {
        check_column_count(row, 4)?;
        Ok(OldCashRow {
            trade: id_cell(row, 0)?,
            stamp: stamp_cell(row, 1)?,
            amount: cents_cell(row, 2)?,
            name: text_cell(row, 3)?,
        })
    }
}

impl Record for CashRow {
    ghost cells = { λ r. move_cells (abstract_cash_row r) };

    ghost forms = { move_column_cell_checks };

    fn from_row(row: &Row) -> Result<CashRow, DecodeError> {
        check_column_count(row, 6)?;
        Ok(CashRow {
            id: cash_row_id_cell(row, 0)?,
            account: id_cell(row, 1)?,
            trade: optional_id_cell(row, 2)?,
            stamp: stamp_cell(row, 3)?,
            amount: cents_cell(row, 4)?,
            name: text_cell(row, 5)?,
        })
    }
}

impl Record for Id {
    ghost cells = { λ id. natural_as_value id ∷ [] };

    ghost forms = { is_id_cell ∷ [] };

    fn from_row(row: &Row) -> Result<Id, DecodeError> {
        check_column_count(row, 1)?;
        id_cell(row, 0)
    }
}
