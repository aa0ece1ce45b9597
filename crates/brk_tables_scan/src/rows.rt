//! Written by tools/generate/tables.py.
//! Reads of all rows of each table, sorted by key, ascending. The rows are not decoded. The
//! returned rows are specified only if the table is defined as a desk defines it, and their order
//! only if they encode records with distinct keys (`AreTableRows`).

ghost use Rattle.std.specs.Prelude.{◌≡◌};
ghost use Rattle.brk_tables_schema.specs.Desk.{TheDesk, KeptRows, Brokers, Customers, Accounts, Permissions, Securities, LastTrades, Charges, Bands};
ghost use Rattle.brk_tables_schema.specs.Desk.{TaxRates, CustomerTaxes, Trades, TradeHistory, Requests, Holdings, Summaries, HoldingHistory};
ghost use Rattle.brk_tables_schema.specs.Desk.{Settlements, CashRows, CashMoves, SettleRules};
ghost use Rattle.brk_trade_rows.specs.Schemas.{abstract_schema};
ghost use Rattle.brk_tables_scan.specs.Whole.{ReadsRowsIfInSchema, ReadsAllRows};

use brk_money::StoreFailed;
use brk_tables_schema::calls::select_rows;
use brk_trade_rows::Schema;
use sqlite::{Alter, Row, Transaction};
use std::alloc::Global;

pub fn desk_rows<S: Alter>(tx: &mut Transaction<'_, S>) -> Result<Vec<Row>, StoreFailed>
    ensures same_reference { tx.new.conn.ghost_name ≡ tx.old.conn.ghost_name }
    ensures step { ReadsAllRows S.Store tx.old tx.new result TheDesk }
{
    select_rows(
        tx,
        "SELECT D_ID, D_SCHEMA, D_LAST FROM DESK ORDER BY D_ID",
        &[],
    )
}

pub fn kept_rows<S: Alter>(tx: &mut Transaction<'_, S>) -> Result<Vec<Row>, StoreFailed>
    ensures same_reference { tx.new.conn.ghost_name ≡ tx.old.conn.ghost_name }
    ensures step { ReadsAllRows S.Store tx.old tx.new result KeptRows }
{
    select_rows(
        tx,
        "SELECT K_BATCH, K_N, K_ROW, K_LINE FROM KEPT ORDER BY K_BATCH, K_N",
        &[],
    )
}

pub fn broker_rows<S: Alter>(tx: &mut Transaction<'_, S>) -> Result<Vec<Row>, StoreFailed>
    ensures same_reference { tx.new.conn.ghost_name ≡ tx.old.conn.ghost_name }
    ensures step { ReadsAllRows S.Store tx.old tx.new result Brokers }
{
    select_rows(
        tx,
        "SELECT B_ID, B_NAME, B_NUM_TRADES, B_COMM_TOTAL FROM BROKER ORDER BY B_ID",
        &[],
    )
}

pub fn customer_rows<S: Alter>(tx: &mut Transaction<'_, S>) -> Result<Vec<Row>, StoreFailed>
    ensures same_reference { tx.new.conn.ghost_name ≡ tx.old.conn.ghost_name }
    ensures step { ReadsAllRows S.Store tx.old tx.new result Customers }
{
    select_rows(
        tx,
        "SELECT C_ID, C_TIER, C_TAX_ID, C_L_NAME, C_F_NAME FROM CUSTOMER ORDER BY C_ID",
        &[],
    )
}

pub fn account_rows<S: Alter>(tx: &mut Transaction<'_, S>) -> Result<Vec<Row>, StoreFailed>
    ensures same_reference { tx.new.conn.ghost_name ≡ tx.old.conn.ghost_name }
    ensures step { ReadsAllRows S.Store tx.old tx.new result Accounts }
{
    select_rows(
        tx,
        "SELECT CA_ID, CA_C_ID, CA_B_ID, CA_NAME, CA_TAX_ST, CA_OPEN, CA_BAL \
         FROM CUSTOMER_ACCOUNT ORDER BY CA_ID",
        &[],
    )
}

pub fn permission_rows<S: Alter>(tx: &mut Transaction<'_, S>) -> Result<Vec<Row>, StoreFailed>
    ensures same_reference { tx.new.conn.ghost_name ≡ tx.old.conn.ghost_name }
    ensures step { ReadsAllRows S.Store tx.old tx.new result Permissions }
{
    select_rows(
        tx,
        "SELECT AP_CA_ID, AP_TAX_ID, AP_ACL, AP_L_NAME, AP_F_NAME \
         FROM ACCOUNT_PERMISSION ORDER BY AP_CA_ID, AP_TAX_ID",
        &[],
    )
}

pub fn security_rows<S: Alter>(tx: &mut Transaction<'_, S>) -> Result<Vec<Row>, StoreFailed>
    ensures same_reference { tx.new.conn.ghost_name ≡ tx.old.conn.ghost_name }
    ensures step { ReadsAllRows S.Store tx.old tx.new result Securities }
{
    select_rows(
        tx,
        "SELECT S_SYMB, S_NAME, S_EX_ID, S_SECTOR FROM SECURITY ORDER BY S_SYMB",
        &[],
    )
}

pub fn last_trade_rows<S: Alter>(tx: &mut Transaction<'_, S>) -> Result<Vec<Row>, StoreFailed>
    ensures same_reference { tx.new.conn.ghost_name ≡ tx.old.conn.ghost_name }
    ensures step { ReadsAllRows S.Store tx.old tx.new result LastTrades }
{
    select_rows(
        tx,
        "SELECT LT_S_SYMB, LT_DTS, LT_PRICE, LT_VOL FROM LAST_TRADE ORDER BY LT_S_SYMB",
        &[],
    )
}

pub fn charge_rows<S: Alter>(tx: &mut Transaction<'_, S>) -> Result<Vec<Row>, StoreFailed>
    ensures same_reference { tx.new.conn.ghost_name ≡ tx.old.conn.ghost_name }
    ensures step { ReadsAllRows S.Store tx.old tx.new result Charges }
{
    select_rows(
        tx,
        "SELECT CH_TT_ID, CH_C_TIER, CH_CHRG FROM CHARGE ORDER BY CH_TT_ID, CH_C_TIER",
        &[],
    )
}

pub fn commission_rate_rows<S: Alter>(tx: &mut Transaction<'_, S>) -> Result<Vec<Row>, StoreFailed>
    ensures same_reference { tx.new.conn.ghost_name ≡ tx.old.conn.ghost_name }
    ensures step { ReadsAllRows S.Store tx.old tx.new result Bands }
{
    select_rows(
        tx,
        "SELECT CR_C_TIER, CR_TT_ID, CR_EX_ID, CR_FROM_QTY, CR_TO_QTY, CR_RATE \
         FROM COMMISSION_RATE ORDER BY CR_C_TIER, CR_TT_ID, CR_EX_ID, CR_FROM_QTY",
        &[],
    )
}

pub fn tax_rate_rows<S: Alter>(tx: &mut Transaction<'_, S>) -> Result<Vec<Row>, StoreFailed>
    ensures same_reference { tx.new.conn.ghost_name ≡ tx.old.conn.ghost_name }
    ensures step { ReadsAllRows S.Store tx.old tx.new result TaxRates }
{
    select_rows(
        tx,
        "SELECT TX_ID, TX_NAME, TX_RATE FROM TAXRATE ORDER BY TX_ID",
        &[],
    )
}

pub fn customer_tax_rows<S: Alter>(tx: &mut Transaction<'_, S>) -> Result<Vec<Row>, StoreFailed>
    ensures same_reference { tx.new.conn.ghost_name ≡ tx.old.conn.ghost_name }
    ensures step { ReadsAllRows S.Store tx.old tx.new result CustomerTaxes }
{
    select_rows(
        tx,
        "SELECT CX_C_ID, CX_TX_ID FROM CUSTOMER_TAXRATE ORDER BY CX_C_ID, CX_TX_ID",
        &[],
    )
}

pub fn trade_rows<S: Alter>(tx: &mut Transaction<'_, S>) -> Result<Vec<Row>, StoreFailed>
    ensures same_reference { tx.new.conn.ghost_name ≡ tx.old.conn.ghost_name }
    ensures step { ReadsAllRows S.Store tx.old tx.new result Trades }
{
    select_rows(
        tx,
        "SELECT T_ID, T_DTS, T_ST_ID, T_TT_ID, T_IS_CASH, T_S_SYMB, T_QTY, T_BID_PRICE, T_CA_ID, \
         T_EXEC_NAME, T_TRADE_PRICE, T_CHRG, T_COMM, T_TAX, T_LIFO \
         FROM TRADE ORDER BY T_ID",
        &[],
    )
}

pub fn trade_history_rows<S: Alter>(tx: &mut Transaction<'_, S>) -> Result<Vec<Row>, StoreFailed>
    ensures same_reference { tx.new.conn.ghost_name ≡ tx.old.conn.ghost_name }
    ensures step { ReadsAllRows S.Store tx.old tx.new result TradeHistory }
{
    select_rows(
        tx,
        "SELECT TH_T_ID, TH_ST_ID, TH_DTS FROM TRADE_HISTORY ORDER BY TH_T_ID, TH_ST_ID",
        &[],
    )
}

pub fn trade_request_rows<S: Alter>(tx: &mut Transaction<'_, S>) -> Result<Vec<Row>, StoreFailed>
    ensures same_reference { tx.new.conn.ghost_name ≡ tx.old.conn.ghost_name }
    ensures step { ReadsAllRows S.Store tx.old tx.new result Requests }
{
    select_rows(
        tx,
        "SELECT TR_T_ID, TR_TT_ID, TR_S_SYMB, TR_QTY, TR_BID_PRICE, TR_B_ID \
         FROM TRADE_REQUEST ORDER BY TR_T_ID",
        &[],
    )
}

pub fn holding_rows<S: Alter>(tx: &mut Transaction<'_, S>) -> Result<Vec<Row>, StoreFailed>
    ensures same_reference { tx.new.conn.ghost_name ≡ tx.old.conn.ghost_name }
    ensures step { ReadsAllRows S.Store tx.old tx.new result Holdings }
{
    select_rows(
        tx,
        "SELECT H_T_ID, H_CA_ID, H_S_SYMB, H_DTS, H_PRICE, H_QTY FROM HOLDING ORDER BY H_T_ID",
        &[],
    )
}

pub fn holding_summary_rows<S: Alter>(tx: &mut Transaction<'_, S>) -> Result<Vec<Row>, StoreFailed>
    ensures same_reference { tx.new.conn.ghost_name ≡ tx.old.conn.ghost_name }
    ensures step { ReadsAllRows S.Store tx.old tx.new result Summaries }
{
    select_rows(
        tx,
        "SELECT HS_CA_ID, HS_S_SYMB, HS_QTY FROM HOLDING_SUMMARY ORDER BY HS_CA_ID, HS_S_SYMB",
        &[],
    )
}

pub fn holding_history_rows<S: Alter>(tx: &mut Transaction<'_, S>) -> Result<Vec<Row>, StoreFailed>
    ensures same_reference { tx.new.conn.ghost_name ≡ tx.old.conn.ghost_name }
    ensures step { ReadsAllRows S.Store tx.old tx.new result HoldingHistory }
{
    select_rows(
        tx,
        "SELECT HH_H_T_ID, HH_T_ID, HH_BEFORE_QTY, HH_AFTER_QTY \
         FROM HOLDING_HISTORY ORDER BY HH_H_T_ID, HH_T_ID",
        &[],
    )
}

pub fn settlement_rows<S: Alter>(tx: &mut Transaction<'_, S>) -> Result<Vec<Row>, StoreFailed>
    ensures same_reference { tx.new.conn.ghost_name ≡ tx.old.conn.ghost_name }
    ensures step { ReadsAllRows S.Store tx.old tx.new result Settlements }
{
    select_rows(
        tx,
        "SELECT SE_T_ID, SE_CASH_TYPE, SE_CASH_DUE_DATE, SE_AMT FROM SETTLEMENT ORDER BY SE_T_ID",
        &[],
    )
}

pub fn cash_transaction_rows<S: Alter>(tx: &mut Transaction<'_, S>) -> Result<Vec<Row>, StoreFailed>
    ensures same_reference { tx.new.conn.ghost_name ≡ tx.old.conn.ghost_name }
    ensures step { ReadsAllRows S.Store tx.old tx.new result CashRows }
{
    select_rows(
        tx,
        "SELECT CT_T_ID, CT_DTS, CT_AMT, CT_NAME FROM CASH_TRANSACTION ORDER BY CT_T_ID",
        &[],
    )
}

fn cash_move_rows<S: Alter>(tx: &mut Transaction<'_, S>) -> Result<Vec<Row>, StoreFailed>
    ensures same_reference { tx.new.conn.ghost_name ≡ tx.old.conn.ghost_name }
    ensures step { ReadsAllRows S.Store tx.old tx.new result CashMoves }
{
    select_rows(
        tx,
        "SELECT CM_ID, CM_CA_ID, CM_T_ID, CM_DTS, CM_AMT, CM_NAME FROM CASH_MOVE ORDER BY CM_ID",
        &[],
    )
}

fn settle_rule_rows<S: Alter>(tx: &mut Transaction<'_, S>) -> Result<Vec<Row>, StoreFailed>
    ensures same_reference { tx.new.conn.ghost_name ≡ tx.old.conn.ghost_name }
    ensures step { ReadsAllRows S.Store tx.old tx.new result SettleRules }
{
    select_rows(
        tx,
        "SELECT SR_ID, SR_DAY FROM SETTLE_RULE ORDER BY SR_ID",
        &[],
    )
}

/// Returns no rows if `schema` lacks the table.
pub fn cash_move_rows_in_schema<S: Alter>(
    tx: &mut Transaction<'_, S>,
    alloc: Global,
    schema: Schema,
) -> Result<Vec<Row>, StoreFailed>
    ensures same_reference { tx.new.conn.ghost_name ≡ tx.old.conn.ghost_name }
    ensures step { ReadsRowsIfInSchema S.Store tx.old tx.new result (abstract_schema schema) CashMoves }
{
    if !schema.has_cash_move_table() {
        return Ok(Vec::new(alloc));
    }
    cash_move_rows(tx)
}

/// Returns no rows if `schema` lacks the table.
pub fn settle_rule_rows_in_schema<S: Alter>(
    tx: &mut Transaction<'_, S>,
    alloc: Global,
    schema: Schema,
) -> Result<Vec<Row>, StoreFailed>
    ensures same_reference { tx.new.conn.ghost_name ≡ tx.old.conn.ghost_name }
    ensures step { ReadsRowsIfInSchema S.Store tx.old tx.new result (abstract_schema schema) SettleRules }
{
    if !schema.has_settle_rule_table() {
        return Ok(Vec::new(alloc));
    }
    settle_rule_rows(tx)
}
