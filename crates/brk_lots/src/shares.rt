//! How many shares of a lot a trade closes (Trade-Result).

ghost use Rattle.std.specs.Prelude.{◌≡◌, min};

/// Returns the smaller of the shares that the lot holds and those that the trade has left.
pub fn shares_to_close_in_lot(held: u64, left: u32) -> u32
    ensures { result ≡ min left held }
{
    held.min(u64::from(left)) as u32
}
