use brk_ref::BrokerRow;

/// The facts that the explanation of a broker reads, except for the completed trades, which are
/// read row by row.
#[derive(Drop)]
pub struct BrokerDetails {
    pub broker: BrokerRow,
    /// The number of the broker's accounts.
    pub accounts: usize,
}
