//! Theorems about whole histories, over the definitions that the contracts cite. Their functions do
//! nothing at run time.

ghost use Rattle.std.specs.Prelude.{◌≡◌, ◌-◌, ◌+ℤ◌, ◌++◌, List, [], ℕ, map};
ghost use Rattle.std.specs.List.{AllByRecursion};
ghost use Rattle.brk_money.specs.declared.side.Side.{Side};
ghost use Rattle.brk_model.specs.Shares.{Deal, replay, lot_quantity, lots_of_shares, lot_touches_of_deal, touches_of_existing_lots};
ghost use Rattle.brk_model.specs.Shares.{opened_shares, shares_after_deal, closed_share_count_of_deal, signed_by_side};
ghost use Rattle.brk_lots.specs.declared.lot.Lot.{Lot};
ghost use Rattle.brk_lots.specs.Books.{deal_quantity_sum, realised_gain_sum, cost_basis_of_lots, lot_quantity_sum, purchase_value_minus_sale_value};
ghost use Rattle.brk_lots.specs.Chains.{IsLotHistory, opening_touch, changes_of_lot};
ghost use Rattle.brk_lots.specs.Deals.{AreDistinctAscendingDeals};
ghost use Rattle.brk_lots.specs.Lots.{shares_of_lots, abstract_lot};
ghost use Rattle.brk_lots.specs.Position.{AreOpenedByOtherTrades, IsPosition};

/// After any deals, the lots have one side, sum to the deals, and cost the realised gains plus the
/// purchases less the sales.
pub fn replayed_lots_match_their_deals()
    ensures one_side { (deals : List Deal) → (side : Side) × AllByRecursion (λ u. u.side ≡ side) (replay deals) }
    ensures quantities { (deals : List Deal) (ls : List Lot) → shares_of_lots ls ≡ replay deals → lot_quantity_sum ls ≡ deal_quantity_sum deals }
    ensures costs { (deals : List Deal) (ls : List Lot) → shares_of_lots ls ≡ replay deals
        → cost_basis_of_lots ls ≡ realised_gain_sum deals [] +ℤ purchase_value_minus_sale_value deals }
{}

/// The changes of each lot form a chain from 0 to its quantity, and a deal opens a lot of the
/// shares that it does not close.
pub fn lot_histories_are_chains()
    ensures history { (deals : List Deal) (trade : ℕ) → AreDistinctAscendingDeals deals
        → IsLotHistory (changes_of_lot trade deals []) (lot_quantity (replay deals) trade) }
    ensures opened { (d : Deal) (ls : List Lot) → IsPosition ls → AreOpenedByOtherTrades d.trade ls →
        lot_quantity (shares_after_deal (shares_of_lots ls) d) d.trade ≡ signed_by_side d.side (d.qty - closed_share_count_of_deal d (shares_of_lots ls)) }
{}

/// A deal changes first the lots that it closes or reduces, and then opens its own lot.
pub fn lot_changes_are_closings_then_opening()
    ensures { (d : Deal) (ls : List Lot) → IsPosition ls → AreOpenedByOtherTrades d.trade ls →
        lot_touches_of_deal d (shares_of_lots ls)
        ≡ touches_of_existing_lots d (shares_of_lots ls) ++ map opening_touch (lots_of_shares (opened_shares d (shares_of_lots ls))) }
{}

/// The lots of a position are those that the model forms from its single shares.
pub fn position_lots_equal_lots_of_shares()
    ensures { (ls : List Lot) → IsPosition ls → map abstract_lot ls ≡ lots_of_shares (shares_of_lots ls) }
{}
