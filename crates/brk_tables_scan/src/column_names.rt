//! Written by tools/generate/tables.py: the columns of each table.

/// For each table, those of later schemas last: the statement that selects all of its columns, and
/// their names, in order.
pub(crate) const COLUMNS_OF_ALL_TABLES: [(&str, &[&str]); 22] = [
    ("SELECT * FROM DESK", &["D_ID", "D_SCHEMA", "D_LAST"]),
    ("SELECT * FROM KEPT", &["K_BATCH", "K_N", "K_ROW", "K_LINE"]),
    (
        "SELECT * FROM BROKER",
        &["B_ID", "B_NAME", "B_NUM_TRADES", "B_COMM_TOTAL"],
    ),
    (
        "SELECT * FROM CUSTOMER",
        &["C_ID", "C_TIER", "C_TAX_ID", "C_L_NAME", "C_F_NAME"],
    ),
    (
        "SELECT * FROM CUSTOMER_ACCOUNT",
        &[
            "CA_ID",
            "CA_C_ID",
            "CA_B_ID",
            "CA_NAME",
            "CA_TAX_ST",
            "CA_OPEN",
            "CA_BAL",
        ],
    ),
    (
        "SELECT * FROM ACCOUNT_PERMISSION",
        &["AP_CA_ID", "AP_TAX_ID", "AP_ACL", "AP_L_NAME", "AP_F_NAME"],
    ),
    (
        "SELECT * FROM SECURITY",
        &["S_SYMB", "S_NAME", "S_EX_ID", "S_SECTOR"],
    ),
    (
        "SELECT * FROM LAST_TRADE",
        &["LT_S_SYMB", "LT_DTS", "LT_PRICE", "LT_VOL"],
    ),
    (
        "SELECT * FROM CHARGE",
        &["CH_TT_ID", "CH_C_TIER", "CH_CHRG"],
    ),
    (
        "SELECT * FROM COMMISSION_RATE",
        &[
            "CR_C_TIER",
            "CR_TT_ID",
            "CR_EX_ID",
            "CR_FROM_QTY",
            "CR_TO_QTY",
            "CR_RATE",
        ],
    ),
    ("SELECT * FROM TAXRATE", &["TX_ID", "TX_NAME", "TX_RATE"]),
    ("SELECT * FROM CUSTOMER_TAXRATE", &["CX_C_ID", "CX_TX_ID"]),
    (
        "SELECT * FROM TRADE",
        &[
            "T_ID",
            "T_DTS",
            "T_ST_ID",
            "T_TT_ID",
            "T_IS_CASH",
            "T_S_SYMB",
            "T_QTY",
            "T_BID_PRICE",
            "T_CA_ID",
            "T_EXEC_NAME",
            "T_TRADE_PRICE",
            "T_CHRG",
            "T_COMM",
            "T_TAX",
            "T_LIFO",
        ],
    ),
    (
        "SELECT * FROM TRADE_HISTORY",
        &["TH_T_ID", "TH_ST_ID", "TH_DTS"],
    ),
    (
        "SELECT * FROM TRADE_REQUEST",
        &[
            "TR_T_ID",
            "TR_TT_ID",
            "TR_S_SYMB",
            "TR_QTY",
            "TR_BID_PRICE",
            "TR_B_ID",
        ],
    ),
    (
        "SELECT * FROM HOLDING",
        &["H_T_ID", "H_CA_ID", "H_S_SYMB", "H_DTS", "H_PRICE", "H_QTY"],
    ),
    (
        "SELECT * FROM HOLDING_SUMMARY",
        &["HS_CA_ID", "HS_S_SYMB", "HS_QTY"],
    ),
    (
        "SELECT * FROM HOLDING_HISTORY",
        &["HH_H_T_ID", "HH_T_ID", "HH_BEFORE_QTY", "HH_AFTER_QTY"],
    ),
    (
        "SELECT * FROM SETTLEMENT",
        &["SE_T_ID", "SE_CASH_TYPE", "SE_CASH_DUE_DATE", "SE_AMT"],
    ),
    (
        "SELECT * FROM CASH_TRANSACTION",
        &["CT_T_ID", "CT_DTS", "CT_AMT", "CT_NAME"],
    ),
    (
        "SELECT * FROM CASH_MOVE",
        &[
            "CM_ID", "CM_CA_ID", "CM_T_ID", "CM_DTS", "CM_AMT", "CM_NAME",
        ],
    ),
    ("SELECT * FROM SETTLE_RULE", &["SR_ID", "SR_DAY"]),
];
