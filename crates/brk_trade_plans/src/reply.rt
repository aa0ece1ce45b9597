use crate::estimate::Estimate;
use brk_money::{Amount, Cents, Day, Id, MoveId, Stamp, Status};

/// The reply to an accepted order (Trade-Order).
#[derive(Clone, Copy, PartialEq, Eq)]
pub struct Ordered {
    pub stamp: Stamp,
    /// The id of the new trade.
    pub trade: Id,
    /// `Submitted` for a market order, otherwise `Pending`.
    pub status: Status,
    /// The estimate of the order, in cents.
    pub estimate: Estimate,
}

/// The figures of a completed trade (Trade-Result). The amounts are in cents.
#[derive(Clone, Copy, PartialEq, Eq)]
pub struct Completed {
    pub stamp: Stamp,
    pub commission: Amount,
    /// The tax on the realised gain of the closed shares.
    pub tax: Amount,
    /// The settlement amount, negative if the account pays.
    pub amount: Cents,
    /// The day on which the trade settles.
    pub due_day: Day,
    /// Buy value of the closed shares.
    pub buy_value: Amount,
    /// Sell value of the closed shares.
    pub sell_value: Amount,
    /// The balance of the account after the result.
    pub balance: Cents,
}

/// The reply to an accepted command, with its stamp, or to an estimate.
#[derive(Drop)]
pub enum Reply {
    /// A row of reference data was added, or the first day of one-day settlement was set.
    Booked(Stamp),
    /// An order was placed.
    Ordered(Ordered),
    /// A feed was executed. Lists the trades that its ticks triggered, tick by tick, and in
    /// ascending order of id within one tick.
    Ticked(Stamp, Vec<Id>),
    /// A pending trade was canceled.
    Canceled(Stamp),
    /// A submitted trade was completed.
    Completed(Completed),
    /// Texts were updated; the count is the number of trades.
    Changed(Stamp, usize),
    /// Cash was deposited or withdrawn.
    Moved {
        stamp: Stamp,
        /// The number of the new cash row (CM_ID).
        number: MoveId,
        /// The balance of the account after the deposit or the withdrawal.
        balance: Cents,
    },
    /// An order was estimated, and nothing was booked. No command has this reply.
    Estimated(Estimate),
}
