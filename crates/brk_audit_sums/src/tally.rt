//! Sums of amounts by key. A key that a map does not contain has the sum 0.

ghost use Rattle.std.specs.Prelude.{◌≡◌, ◌+◌, ◌<◌, ◌≤◌, ◌^◌, ℤ, pos, ◌+ℤ◌, nat_abs, cond, IfOk, OnOk};
ghost use Rattle.std.specs.Ordering.{is_eq};
ghost use Rattle.brk_audit_sums.specs.Tally.{sum_at_key, total_amount_at_key};

use std::alloc::{AllocError, Global};
use std::collections::BTreeMap;

/// A posting: an amount, and the key to whose sum it is added.
#[derive(Drop)]
pub struct KeyedAmount<K> {
    pub key: K,
    pub amount: i64,
}

fn sum_plus_amount(sum: i128, amount: i64) -> i128
    requires room { nat_abs sum + 2 ^ 63 < 2 ^ 127 }
    ensures sum { result ≡ sum +ℤ amount }
    ensures small { nat_abs result ≤ nat_abs sum + 2 ^ 63 }
{
    sum + i128::from(amount)
}

fn add_posting<K: Ord + Copy>(
    tally: &mut BTreeMap<K, i128>,
    posting: &KeyedAmount<K>,
) -> Result<(), AllocError>
    requires room { nat_abs (sum_at_key K.cmp tally.old posting.now.key) + 2 ^ 63 < 2 ^ 127 }
    ensures more { OnOk result ((q : K)
        → sum_at_key K.cmp tally.new q ≡ sum_at_key K.cmp tally.old q +ℤ cond (is_eq (K.cmp posting.now.key q)) posting.now.amount (pos 0)) }
    ensures small { OnOk result ((q : K) → nat_abs (sum_at_key K.cmp tally.new q) ≤ nat_abs (sum_at_key K.cmp tally.old q) + 2 ^ 63) }
{
    let key = posting.key;
    let sum = tally.get(&key).copied().unwrap_or(0);
    let more = sum_plus_amount(sum, posting.amount);
    tally.insert(key, more)?;
    Ok(())
}

/// Returns the sum of the amounts at each key of the postings.
pub fn sum_by_key<K: Ord + Copy>(
    alloc: Global,
    postings: &[KeyedAmount<K>],
) -> Result<BTreeMap<K, i128>, AllocError>
    ensures sums { IfOk result (λ tally. (q : K) → sum_at_key K.cmp tally q ≡ total_amount_at_key K.cmp postings.now q) }
{
    let mut tally = BTreeMap::new(alloc);
    for posting in postings {
        add_posting(&mut tally, posting)?;
    }
    Ok(tally)
}

pub fn sum_at<K: Ord + Copy>(tally: &BTreeMap<K, i128>, key: K) -> i128
    ensures { result ≡ sum_at_key K.cmp tally.now key }
{
    tally.get(&key).copied().unwrap_or(0)
}
