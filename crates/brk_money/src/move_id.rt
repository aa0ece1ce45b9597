ghost use Rattle.std.specs.Prelude.{◌≡◌, ℕ, ◌≤◌, ◌^◌, SomeIff};
ghost use Rattle.brk_money.specs.declared.move_id.TheConstants.MoveId;

use std::marker::Model;

/// The number of a cash row (CM_ID), 1 to 2 x 10^12, both included: the cash rows of all accounts
/// are numbered from 1 in the order of their stamps. At most 10^12 of them belong to trades, and at
/// most 10^12 are deposits or withdrawals.
#[derive(Clone, Copy, Debug, PartialEq, Eq)]
pub struct MoveId(u64);

impl Model for MoveId {
    ghost Value = { ℕ };

    ghost view = { λ id. id.0 };

    ghost inverse = { λ n. record { 0 = n } };

    ghost invariant = { λ id. (1 ≤ id.0) × (id.0 ≤ MoveId.GREATEST) };
}

impl MoveId {
    /// The greatest number.
    pub const GREATEST: u64 = 2_000_000_000_000;

    pub fn new(number: u64) -> Option<MoveId>
        ensures { SomeIff result ((1 ≤ number) × (number ≤ MoveId.GREATEST)) number }
    {
        if 1 <= number && number <= MoveId::GREATEST {
            Some(MoveId(number))
        } else {
            None
        }
    }

    pub fn get(self) -> u64
        ensures value { result ≡ self }
        ensures low { 1 ≤ self }
        ensures high { self ≤ MoveId.GREATEST }
    {
        self.0
    }
}
