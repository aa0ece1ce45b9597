use brk_money::Id;
use brk_ref::Symbol;

/// A group of rows that the index finds.
#[derive(Clone, Copy)]
pub enum Group<'a> {
    /// The lots of an account in a security, by the stamp of the opening, then by the opening trade.
    Position(Id, &'a Symbol),
    /// The lots of an account, by the opening trade, which is the id of the age.
    LotsOfAccount(Id),
    /// The trades of an account, by the stamp of the last status, then by id.
    TradesOfAccount(Id),
    /// The trades in a security, by the stamp of the last status, then by id.
    TradesOfSymbol(&'a Symbol),
    /// The trades with the status submitted, by id.
    SubmittedTrades,
    /// The accounts of a customer, by id.
    AccountsOfCustomer(Id),
    /// The cash rows of an account, by stamp, then by number, which is the id of the age.
    CashRowsOfAccount(Id),
    /// The changes of lots by a trade, by the opening trade of the lot, which is the id of the age.
    LotChangesOfTrade(Id),
}
