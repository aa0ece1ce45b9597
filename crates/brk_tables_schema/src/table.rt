//! Written by tools/generate/tables.py: the tables of a desk, and their SQL texts.

ghost use Rattle.std.specs.Prelude.{◌≡◌};
ghost use Rattle.brk_tables_schema.specs.Texts.{create_table_text, existence_probe_text, abstract_table};

/// A table of a desk.
#[derive(Clone, Copy)]
pub enum Table {
    /// DESK
    TheDesk,
    /// KEPT
    KeptRows,
    /// BROKER
    Brokers,
    /// CUSTOMER
    Customers,
    /// CUSTOMER_ACCOUNT
    Accounts,
    /// ACCOUNT_PERMISSION
    Permissions,
    /// SECURITY
    Securities,
    /// LAST_TRADE
    LastTrades,
    /// CHARGE
    Charges,
    /// COMMISSION_RATE
    Bands,
    /// TAXRATE
    TaxRates,
    /// CUSTOMER_TAXRATE
    CustomerTaxes,
    /// TRADE
    Trades,
    /// TRADE_HISTORY
    TradeHistory,
    /// TRADE_REQUEST
    Requests,
    /// HOLDING
    Holdings,
    /// HOLDING_SUMMARY
    Summaries,
    /// HOLDING_HISTORY
    HoldingHistory,
    /// SETTLEMENT
    Settlements,
    /// CASH_TRANSACTION
    CashRows,
    /// CASH_MOVE
    CashMoves,
    /// SETTLE_RULE
    SettleRules,
}

impl Table {
    /// Returns the CREATE TABLE statement of the table.
    pub fn create_table_text(self) -> &'static str
        ensures { result.now ≡ create_table_text (abstract_table self) }
    {
        match self {
            Table::TheDesk => "CREATE TABLE DESK (\
                D_ID INTEGER PRIMARY KEY NOT NULL, D_SCHEMA INTEGER NOT NULL, \
                D_LAST INTEGER) STRICT",
            Table::KeptRows => "CREATE TABLE KEPT (\
                K_BATCH TEXT NOT NULL, K_N INTEGER NOT NULL, K_ROW TEXT NOT NULL, \
                K_LINE TEXT NOT NULL, PRIMARY KEY (K_BATCH, K_N)) STRICT",
            Table::Brokers => "CREATE TABLE BROKER (\
                B_ID INTEGER PRIMARY KEY NOT NULL, B_NAME TEXT NOT NULL, \
                B_NUM_TRADES INTEGER NOT NULL, B_COMM_TOTAL INTEGER NOT NULL) STRICT",
            Table::Customers => "CREATE TABLE CUSTOMER (\
                C_ID INTEGER PRIMARY KEY NOT NULL, C_TIER INTEGER NOT NULL, \
                C_TAX_ID TEXT NOT NULL UNIQUE, C_L_NAME TEXT NOT NULL, \
                C_F_NAME TEXT NOT NULL) STRICT",
            Table::Accounts => "CREATE TABLE CUSTOMER_ACCOUNT (\
                CA_ID INTEGER PRIMARY KEY NOT NULL, \
                CA_C_ID INTEGER NOT NULL REFERENCES CUSTOMER (C_ID), \
                CA_B_ID INTEGER NOT NULL REFERENCES BROKER (B_ID), CA_NAME TEXT NOT NULL, \
                CA_TAX_ST INTEGER NOT NULL, CA_OPEN INTEGER NOT NULL, \
                CA_BAL INTEGER NOT NULL) STRICT",
            Table::Permissions => "CREATE TABLE ACCOUNT_PERMISSION (\
                AP_CA_ID INTEGER NOT NULL REFERENCES CUSTOMER_ACCOUNT (CA_ID), \
                AP_TAX_ID TEXT NOT NULL, AP_ACL TEXT NOT NULL, AP_L_NAME TEXT NOT NULL, \
                AP_F_NAME TEXT NOT NULL, PRIMARY KEY (AP_CA_ID, AP_TAX_ID)) STRICT",
            Table::Securities => "CREATE TABLE SECURITY (\
                S_SYMB TEXT NOT NULL PRIMARY KEY, S_NAME TEXT NOT NULL, S_EX_ID TEXT NOT NULL, \
                S_SECTOR TEXT NOT NULL) STRICT",
            Table::LastTrades => "CREATE TABLE LAST_TRADE (\
                LT_S_SYMB TEXT NOT NULL PRIMARY KEY REFERENCES SECURITY (S_SYMB), \
                LT_DTS INTEGER NOT NULL, LT_PRICE INTEGER NOT NULL, LT_VOL INTEGER NOT NULL) STRICT",
            Table::Charges => "CREATE TABLE CHARGE (\
                CH_TT_ID TEXT NOT NULL, CH_C_TIER INTEGER NOT NULL, CH_CHRG INTEGER NOT NULL, \
                PRIMARY KEY (CH_TT_ID, CH_C_TIER)) STRICT",
            Table::Bands => "CREATE TABLE COMMISSION_RATE (\
                CR_C_TIER INTEGER NOT NULL, CR_TT_ID TEXT NOT NULL, CR_EX_ID TEXT NOT NULL, \
                CR_FROM_QTY INTEGER NOT NULL, CR_TO_QTY INTEGER NOT NULL, \
                CR_RATE INTEGER NOT NULL, \
                PRIMARY KEY (CR_C_TIER, CR_TT_ID, CR_EX_ID, CR_FROM_QTY)) STRICT",
            Table::TaxRates => "CREATE TABLE TAXRATE (\
                TX_ID INTEGER PRIMARY KEY NOT NULL, TX_NAME TEXT NOT NULL, \
                TX_RATE INTEGER NOT NULL) STRICT",
            Table::CustomerTaxes => "CREATE TABLE CUSTOMER_TAXRATE (\
                CX_C_ID INTEGER NOT NULL REFERENCES CUSTOMER (C_ID), \
                CX_TX_ID INTEGER NOT NULL REFERENCES TAXRATE (TX_ID), \
                PRIMARY KEY (CX_C_ID, CX_TX_ID)) STRICT",
            Table::Trades => "CREATE TABLE TRADE (\
                T_ID INTEGER PRIMARY KEY NOT NULL, T_DTS INTEGER NOT NULL, T_ST_ID TEXT NOT NULL, \
                T_TT_ID TEXT NOT NULL, T_IS_CASH INTEGER NOT NULL, \
                T_S_SYMB TEXT NOT NULL REFERENCES SECURITY (S_SYMB), T_QTY INTEGER NOT NULL, \
                T_BID_PRICE INTEGER NOT NULL, \
                T_CA_ID INTEGER NOT NULL REFERENCES CUSTOMER_ACCOUNT (CA_ID), \
                T_EXEC_NAME TEXT NOT NULL, T_TRADE_PRICE INTEGER, T_CHRG INTEGER NOT NULL, \
                T_COMM INTEGER NOT NULL, T_TAX INTEGER NOT NULL, T_LIFO INTEGER NOT NULL) STRICT",
            Table::TradeHistory => "CREATE TABLE TRADE_HISTORY (\
                TH_T_ID INTEGER NOT NULL REFERENCES TRADE (T_ID), TH_ST_ID TEXT NOT NULL, \
                TH_DTS INTEGER NOT NULL, PRIMARY KEY (TH_T_ID, TH_ST_ID)) STRICT",
            Table::Requests => "CREATE TABLE TRADE_REQUEST (\
                TR_T_ID INTEGER PRIMARY KEY NOT NULL REFERENCES TRADE (T_ID), \
                TR_TT_ID TEXT NOT NULL, TR_S_SYMB TEXT NOT NULL REFERENCES SECURITY (S_SYMB), \
                TR_QTY INTEGER NOT NULL, TR_BID_PRICE INTEGER NOT NULL, \
                TR_B_ID INTEGER NOT NULL REFERENCES BROKER (B_ID)) STRICT",
            Table::Holdings => "CREATE TABLE HOLDING (\
                H_T_ID INTEGER PRIMARY KEY NOT NULL REFERENCES TRADE (T_ID), \
                H_CA_ID INTEGER NOT NULL REFERENCES CUSTOMER_ACCOUNT (CA_ID), \
                H_S_SYMB TEXT NOT NULL REFERENCES SECURITY (S_SYMB), H_DTS INTEGER NOT NULL, \
                H_PRICE INTEGER NOT NULL, H_QTY INTEGER NOT NULL) STRICT",
            Table::Summaries => "CREATE TABLE HOLDING_SUMMARY (\
                HS_CA_ID INTEGER NOT NULL REFERENCES CUSTOMER_ACCOUNT (CA_ID), \
                HS_S_SYMB TEXT NOT NULL REFERENCES SECURITY (S_SYMB), HS_QTY INTEGER NOT NULL, \
                PRIMARY KEY (HS_CA_ID, HS_S_SYMB)) STRICT",
            Table::HoldingHistory => "CREATE TABLE HOLDING_HISTORY (\
                HH_H_T_ID INTEGER NOT NULL REFERENCES TRADE (T_ID), \
                HH_T_ID INTEGER NOT NULL REFERENCES TRADE (T_ID), HH_BEFORE_QTY INTEGER NOT NULL, \
                HH_AFTER_QTY INTEGER NOT NULL, PRIMARY KEY (HH_H_T_ID, HH_T_ID)) STRICT",
            Table::Settlements => "CREATE TABLE SETTLEMENT (\
                SE_T_ID INTEGER PRIMARY KEY NOT NULL REFERENCES TRADE (T_ID), \
                SE_CASH_TYPE TEXT NOT NULL, SE_CASH_DUE_DATE INTEGER NOT NULL, \
                SE_AMT INTEGER NOT NULL) STRICT",
            Table::CashRows => "CREATE TABLE CASH_TRANSACTION (\
                CT_T_ID INTEGER PRIMARY KEY NOT NULL REFERENCES TRADE (T_ID), \
                CT_DTS INTEGER NOT NULL, CT_AMT INTEGER NOT NULL, CT_NAME TEXT NOT NULL) STRICT",
            Table::CashMoves => "CREATE TABLE CASH_MOVE (\
                CM_ID INTEGER PRIMARY KEY NOT NULL, \
                CM_CA_ID INTEGER NOT NULL REFERENCES CUSTOMER_ACCOUNT (CA_ID), \
                CM_T_ID INTEGER UNIQUE REFERENCES TRADE (T_ID), CM_DTS INTEGER NOT NULL, \
                CM_AMT INTEGER NOT NULL, CM_NAME TEXT NOT NULL) STRICT",
            Table::SettleRules => "CREATE TABLE SETTLE_RULE (\
                SR_ID INTEGER PRIMARY KEY NOT NULL, SR_DAY INTEGER NOT NULL) STRICT",
        }
    }

    /// Returns a DELETE of all rows of the table. A look-up compiles it, and never executes it, to
    /// test whether a table of this name exists.
    pub fn existence_probe_text(self) -> &'static str
        ensures { result.now ≡ existence_probe_text (abstract_table self) }
    {
        match self {
            Table::TheDesk => "DELETE FROM DESK",
            Table::KeptRows => "DELETE FROM KEPT",
            Table::Brokers => "DELETE FROM BROKER",
            Table::Customers => "DELETE FROM CUSTOMER",
            Table::Accounts => "DELETE FROM CUSTOMER_ACCOUNT",
            Table::Permissions => "DELETE FROM ACCOUNT_PERMISSION",
            Table::Securities => "DELETE FROM SECURITY",
            Table::LastTrades => "DELETE FROM LAST_TRADE",
            Table::Charges => "DELETE FROM CHARGE",
            Table::Bands => "DELETE FROM COMMISSION_RATE",
            Table::TaxRates => "DELETE FROM TAXRATE",
            Table::CustomerTaxes => "DELETE FROM CUSTOMER_TAXRATE",
            Table::Trades => "DELETE FROM TRADE",
            Table::TradeHistory => "DELETE FROM TRADE_HISTORY",
            Table::Requests => "DELETE FROM TRADE_REQUEST",
            Table::Holdings => "DELETE FROM HOLDING",
            Table::Summaries => "DELETE FROM HOLDING_SUMMARY",
            Table::HoldingHistory => "DELETE FROM HOLDING_HISTORY",
            Table::Settlements => "DELETE FROM SETTLEMENT",
            Table::CashRows => "DELETE FROM CASH_TRANSACTION",
            Table::CashMoves => "DELETE FROM CASH_MOVE",
            Table::SettleRules => "DELETE FROM SETTLE_RULE",
        }
    }
}

/// The tables of the first schema.
pub const TABLES_OF_FIRST_SCHEMA: [Table; 20] = [
    Table::TheDesk,
    Table::KeptRows,
    Table::Brokers,
    Table::Customers,
    Table::Accounts,
    Table::Permissions,
    Table::Securities,
    Table::LastTrades,
    Table::Charges,
    Table::Bands,
    Table::TaxRates,
    Table::CustomerTaxes,
    Table::Trades,
    Table::TradeHistory,
    Table::Requests,
    Table::Holdings,
    Table::Summaries,
    Table::HoldingHistory,
    Table::Settlements,
    Table::CashRows,
];

/// The tables of the second schema.
pub const TABLES_OF_SECOND_SCHEMA: [Table; 21] = [
    Table::TheDesk,
    Table::KeptRows,
    Table::Brokers,
    Table::Customers,
    Table::Accounts,
    Table::Permissions,
    Table::Securities,
    Table::LastTrades,
    Table::Charges,
    Table::Bands,
    Table::TaxRates,
    Table::CustomerTaxes,
    Table::Trades,
    Table::TradeHistory,
    Table::Requests,
    Table::Holdings,
    Table::Summaries,
    Table::HoldingHistory,
    Table::Settlements,
    Table::CashRows,
    Table::CashMoves,
];

/// The tables of the third schema.
pub const TABLES_OF_THIRD_SCHEMA: [Table; 22] = [
    Table::TheDesk,
    Table::KeptRows,
    Table::Brokers,
    Table::Customers,
    Table::Accounts,
    Table::Permissions,
    Table::Securities,
    Table::LastTrades,
    Table::Charges,
    Table::Bands,
    Table::TaxRates,
    Table::CustomerTaxes,
    Table::Trades,
    Table::TradeHistory,
    Table::Requests,
    Table::Holdings,
    Table::Summaries,
    Table::HoldingHistory,
    Table::Settlements,
    Table::CashRows,
    Table::CashMoves,
    Table::SettleRules,
];

/// The tables that the second and the third schema add.
pub const ADDED_AFTER_FIRST: [Table; 2] = [Table::CashMoves, Table::SettleRules];

/// The tables that the third schema adds.
pub const ADDED_AFTER_SECOND: [Table; 1] = [Table::SettleRules];
