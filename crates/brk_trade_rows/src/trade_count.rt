ghost use Rattle.std.specs.Prelude.{◌≡◌, ℕ, ◌≤◌, SomeIff};
ghost use Rattle.brk_trade_rows.specs.declared.trade_count.TheConstants.TradeCount;

use std::marker::Model;

/// The number of completed trades of a broker's accounts (B_NUM_TRADES), 0 to 10^12.
#[derive(Clone, Copy, PartialEq, Eq)]
pub struct TradeCount(u64);

impl Model for TradeCount {
    ghost Value = { ℕ };

    ghost view = { λ count. count.0 };

    ghost inverse = { λ n. record { 0 = n } };

    ghost invariant = { λ count. count.0 ≤ TradeCount.GREATEST };
}

impl TradeCount {
    /// The greatest count, equal to the greatest trade id.
    pub const GREATEST: u64 = 1_000_000_000_000;

    pub fn new(trades: u64) -> Option<TradeCount>
        ensures { SomeIff result (trades ≤ TradeCount.GREATEST) trades }
    {
        if trades <= TradeCount::GREATEST {
            Some(TradeCount(trades))
        } else {
            None
        }
    }

    pub fn get(self) -> u64
        ensures value { result ≡ self }
        ensures high { self ≤ TradeCount.GREATEST }
    {
        self.0
    }
}
