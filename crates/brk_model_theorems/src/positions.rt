//! Theorems on positions: their side and their lots.

ghost use Rattle.std.specs.Prelude.{◌≡◌, ℕ, List, filter};
ghost use Rattle.brk_model.specs.Base.{Base, completed_trades};
ghost use Rattle.brk_model.specs.Lists.{total_by};
ghost use Rattle.brk_model.specs.Names.{TradesAreNumberedFrom};
ghost use Rattle.brk_model.specs.Run.{Call, Outcome, Run};
ghost use Rattle.brk_model.specs.Shares.{Deal, replay};
ghost use Rattle.brk_model.specs.Derived.{holding_summary_quantity};
ghost use Rattle.brk_model.specs.Tables.{tables_of_base};
ghost use Rattle.brk_model_theorems.specs.Names.{BaseReferencesResolve};
ghost use Rattle.brk_model_theorems.specs.Positions.{AllSharesHaveSameSide, is_row_of_position};

/// After any deals, all shares of a position have one side.
pub fn all_shares_have_one_side()
    ensures { (deals : List Deal) → AllSharesHaveSameSide (replay deals) }
{}

/// The lots of a position total the shares bought less those sold: if trades are numbered from 1, and
/// after any run from a base in which each reference resolves.
pub fn lots_sum_to_the_summary()
    ensures numbered { (base : Base) (account : ℕ) (symbol : List ℕ) → TradesAreNumberedFrom 1 base.trades
        → total_by (λ row. row.qty) (filter (is_row_of_position account symbol) (tables_of_base base).holdings)
        ≡ holding_summary_quantity (completed_trades base) account symbol }
    ensures run { (base after : Base) (calls : List (ℕ × Call)) (outcomes : List Outcome) (account : ℕ) (symbol : List ℕ)
        → BaseReferencesResolve base → Run base calls outcomes after
        → total_by (λ row. row.qty) (filter (is_row_of_position account symbol) (tables_of_base after).holdings)
        ≡ holding_summary_quantity (completed_trades after) account symbol }
{}
