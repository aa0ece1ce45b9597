ghost use Rattle.std.specs.Prelude.{◌≡◌, ℕ, ◌≤◌, SomeIff};
ghost use Rattle.std.specs.Option.{ok_or};
ghost use Rattle.brk_model.specs.Forms.{read_tier};
ghost use Rattle.brk_money.specs.declared.refusal.Refusal.TheVariants.{BadText};

use brk_money::parse_whole;
use std::marker::Model;

/// A customer's tier (C_TIER), 1 to 3. Charges and commission rates depend on it.
#[derive(Clone, Copy, PartialEq, Eq)]
pub struct Tier(u8);

impl Model for Tier {
    ghost Value = { ℕ };

    ghost view = { λ tier. tier.0 };

    ghost inverse = { λ n. record { 0 = n } };

    ghost invariant = { λ tier. (1 ≤ tier.0) × (tier.0 ≤ 3) };
}

impl Tier {
    pub fn new(number: u64) -> Option<Tier>
        ensures { SomeIff result ((1 ≤ number) × (number ≤ 3)) number }
    {
        if 1 <= number && number <= 3 {
            Some(Tier(number as u8))
        } else {
            None
        }
    }

    pub fn parse(bytes: &[u8]) -> Option<Tier>
        ensures { ok_or result BadText ≡ read_tier bytes.now }
    {
        let Some(number) = parse_whole(bytes, 3) else {
            return None;
        };
        Tier::new(number)
    }

    pub fn get(self) -> u8
        ensures value { result ≡ self }
        ensures low { 1 ≤ self }
        ensures high { self ≤ 3 }
    {
        self.0
    }
}
