ghost use Rattle.std.specs.Prelude.{◌≡◌, ℕ, ◌≤◌, SomeIff};
ghost use Rattle.brk_ref.specs.declared.volume.TheConstants.Volume;

use brk_money::Cents;
use std::marker::Model;

/// The number of shares of a security that were traded on the market (LT_VOL), 0 to 10^17.
#[derive(Clone, Copy)]
pub struct Volume(u64);

impl Model for Volume {
    ghost Value = { ℕ };

    ghost view = { λ volume. volume.0 };

    ghost inverse = { λ n. record { 0 = n } };

    ghost invariant = { λ volume. volume.0 ≤ Volume.GREATEST };
}

impl Volume {
    /// The greatest volume, in shares.
    pub const GREATEST: u64 = Cents::GREATEST;

    pub fn new(shares: u64) -> Option<Volume>
        ensures { SomeIff result (shares ≤ Volume.GREATEST) shares }
    {
        if shares <= Volume::GREATEST {
            Some(Volume(shares))
        } else {
            None
        }
    }

    pub fn before_first_trade() -> Volume
        ensures { result ≡ 0 }
    {
        Volume(0)
    }

    pub fn get(self) -> u64
        ensures value { result ≡ self }
        ensures high { self ≤ Volume.GREATEST }
    {
        self.0
    }
}
