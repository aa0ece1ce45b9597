ghost use Rattle.std.specs.Prelude.{◌≡◌, ◌≤◌, ℕ, SomeIff};
ghost use Rattle.brk_money.specs.declared.tax_rate.TheConstants.TaxRate;

use std::marker::Model;

/// A tax rate, or a customer's sum of tax rates, in hundred-thousandths: 0 to 100,000, both
/// included (TX_RATE).
#[derive(Clone, Copy, Debug, PartialEq, Eq)]
pub struct TaxRate(u32);

impl Model for TaxRate {
    ghost Value = { ℕ };

    ghost view = { λ rate. rate.0 };

    ghost inverse = { λ n. record { 0 = n } };

    ghost invariant = { λ rate. rate.0 ≤ TaxRate.GREATEST };
}

impl TaxRate {
    /// The greatest rate, 100 percent: the tax is the whole gain.
    pub const GREATEST: u32 = 100_000;

    pub fn new(parts: u32) -> Option<TaxRate>
        ensures { SomeIff result (parts ≤ TaxRate.GREATEST) parts }
    {
        if parts <= TaxRate::GREATEST {
            Some(TaxRate(parts))
        } else {
            None
        }
    }

    pub fn get(self) -> u32
        ensures value { result ≡ self }
        ensures high { self ≤ TaxRate.GREATEST }
    {
        self.0
    }
}
