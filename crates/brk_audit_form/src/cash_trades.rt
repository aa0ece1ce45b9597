//! The check that no two cash rows are of the same trade.

ghost use Rattle.std.specs.Prelude.{◌≡◌, ◌||◌, ◌==◌, ℕ, false, not, IfOk, OnOk, map};
ghost use Rattle.std.specs.BTreeSet.{contains};
ghost use Rattle.std.specs.Option.{option_map_or};
ghost use Rattle.std.specs.Ordering.{nat_cmp};
ghost use Rattle.brk_model.specs.Form.{trade_ids_of_cash_rows};
ghost use Rattle.brk_model.specs.Lists.{all_distinct};
ghost use Rattle.brk_ref.specs.Rows.{abstract_cash_row};

use brk_money::Id;
use brk_ref::CashRow;
use std::alloc::{AllocError, Global};
use std::collections::BTreeSet;

// Returns false at a trade that was seen before.
fn insert_trade(seen: &mut BTreeSet<u64>, trade: Option<Id>) -> Result<bool, AllocError>
    ensures new { IfOk result (λ new. new ≡ not (option_map_or (λ id. contains nat_cmp seen.old id) trade false)) }
    ensures seen { OnOk result ((q : ℕ) → contains nat_cmp seen.new q ≡ contains nat_cmp seen.old q || option_map_or (λ id. id == q) trade false) }
{
    let Some(trade) = trade else {
        return Ok(true);
    };
    let new = seen.insert(trade.get())?;
    Ok(new)
}

/// Ignores rows without a trade.
pub(crate) fn have_distinct_trades(alloc: Global, moves: &[CashRow]) -> Result<bool, AllocError>
    ensures { IfOk result (λ own. own ≡ all_distinct (trade_ids_of_cash_rows (map abstract_cash_row moves.now))) }
{
    let mut seen = BTreeSet::new(alloc);
    for row in moves {
        if !insert_trade(&mut seen, row.trade)? {
            return Ok(false);
        }
    }
    Ok(true)
}
