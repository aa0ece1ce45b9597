use brk_money::{Amount, Price, Wide};

/// The estimated figures of an order, in cents (Trade-Order).
#[derive(Clone, Copy, PartialEq, Eq)]
pub struct Estimate {
    /// The requested price of a share, or the last price for a market order.
    pub price: Price,
    /// Buy value of the shares that it would close.
    pub buy_value: Amount,
    /// Sell value of these shares.
    pub sell_value: Amount,
    /// The tax on their gain.
    pub tax: Amount,
    pub commission: Amount,
    pub charge: Amount,
    /// The balance of the account plus the market value of its holdings, before the order.
    pub assets: Wide,
}
