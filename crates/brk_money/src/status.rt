ghost use Rattle.std.specs.Prelude.{◌≡◌};
ghost use Rattle.brk_money.specs.Kinds.{trade_status_code, trade_status_name};

/// The status of a trade (ST_ID, Trade-Order, Market-Feed, Trade-Result).
#[derive(Clone, Copy, Debug, PartialEq, Eq)]
pub enum Status {
    /// A result has completed the trade.
    Completed,
    /// Not used: no trade of this desk is ever active.
    Active,
    /// The trade was sent to the market.
    Submitted,
    /// The trade is sent to the market once a tick reaches its price.
    Pending,
    /// The trade was canceled while it was pending.
    Canceled,
}

impl Status {
    /// Returns the four-letter code of the status in tables and replies.
    pub fn code(self) -> &'static str
        ensures { result.now ≡ trade_status_code self }
    {
        match self {
            Status::Completed => "CMPT",
            Status::Active => "ACTV",
            Status::Submitted => "SBMT",
            Status::Pending => "PNDG",
            Status::Canceled => "CNCL",
        }
    }

    /// Returns the name of the status (ST_NAME).
    pub fn name(self) -> &'static str
        ensures { result.now ≡ trade_status_name self }
    {
        match self {
            Status::Completed => "Completed",
            Status::Active => "Active",
            Status::Submitted => "Submitted",
            Status::Pending => "Pending",
            Status::Canceled => "Canceled",
        }
    }
}
