use brk_money::{Amount, Cents, Day, Id, Price, Stamp, Status};
use brk_ref::{
    Account, Band, Broker, CashRow, CashType, Charge, Customer, CustomerTax, HistoryRow,
    HoldingRow, Kept, LastTrade, LotChange, Permission, RequestRow, Security, SettlementRow,
    SummaryRow, Symbol, Tax, TradeRow,
};

/// A change of one row of a table: `Add` inserts the row, `Set` and `Complete` update it, `Remove`
/// deletes it.
#[derive(Drop)]
pub enum Change {
    /// Inserts a broker, with no trades and no commissions yet.
    AddBroker(Broker),
    AddCustomer(Customer),
    /// Inserts an account, whose balance is its opening balance.
    AddAccount(Account),
    AddPermission(Permission),
    AddSecurity(Security),
    AddLastTrade(LastTrade),
    AddCharge(Charge),
    AddBand(Band),
    AddTaxRate(Tax),
    AddCustomerTax(CustomerTax),
    AddTrade(TradeRow),
    /// Sets the status of a trade and the stamp at which the trade reached it.
    SetStatus {
        trade: Id,
        status: Status,
        stamp: Stamp,
    },
    AddHistory(HistoryRow),
    AddRequest(RequestRow),
    /// Deletes the request of a trade.
    RemoveRequest(Id),
    /// Sets the last trade of a security that has one.
    SetLastTrade(LastTrade),
    /// Sets the status of a trade to `Completed`, and its stamp, price, commission and tax.
    CompleteTrade {
        trade: Id,
        stamp: Stamp,
        price: Price,
        commission: Amount,
        tax: Amount,
    },
    /// Inserts the lot that a trade opened.
    AddLot(HoldingRow),
    /// Sets the quantity of the lot that a trade opened, below 0 if it was sold short.
    SetLot {
        trade: Id,
        qty: i64,
    },
    /// Deletes the lot that a trade opened.
    RemoveLot(Id),
    AddLotChange(LotChange),
    /// Inserts the number of shares of a security that an account holds; the account had no such
    /// row.
    AddSummary(SummaryRow),
    /// Sets the number of shares of a security that an account holds.
    SetSummary(SummaryRow),
    /// Deletes the number of shares of a security that an account held.
    RemoveSummary {
        account: Id,
        symbol: Symbol,
    },
    AddSettlement(SettlementRow),
    /// Inserts a cash row of a cash trade, a deposit or a withdrawal (CASH_MOVE).
    AddMove(CashRow),
    /// Sets the balance of an account, in cents.
    SetBalance {
        account: Id,
        balance: Cents,
    },
    /// Sets a broker's totals: the number of its completed trades and their commissions, in cents.
    SetBrokerTotals {
        broker: Id,
        trades: i64,
        commissions: Amount,
    },
    /// Sets the name of a trade's executor (T_EXEC_NAME).
    SetExecutor {
        trade: Id,
        executor: String,
    },
    /// Sets the settlement text of a trade (SE_CASH_TYPE).
    SetCashType {
        trade: Id,
        cash_type: CashType,
    },
    /// Sets the text of a trade's cash row (CM_NAME).
    SetCashName {
        trade: Id,
        name: String,
    },
    /// Sets the first day of one-day settlement (SR_DAY).
    SetOneDaySettlementStart(Day),
    /// Inserts an accepted row under its key, with the stored reply.
    AddStoredReply(Kept),
    /// Sets the stamp of the last accepted command (D_LAST).
    SetLastStamp(Stamp),
}
