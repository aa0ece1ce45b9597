//! Orders and their results: positions, values, taxes, balances and broker totals (Trade-Order,
//! Trade-Result).
#![tactic(auto, unfolding(crate::proofs::OnLiterals::model_on_literals))]

ghost use Rattle.std.specs.Prelude.{◌≡◌, ◌∷◌, [], pos, negsuc, map, codes};
ghost use Rattle.brk_model.specs.Tables.{tables_of_base};
ghost use Rattle.brk_model_examples.specs.Batches.{base_after_batch, BatchOutputsLines, base_without_stored_replies};
ghost use Rattle.brk_model_examples.specs.Setting.{setting_base};
ghost use Rattle.brk_model_examples.specs.Trading.{base_after_first_purchase, base_after_two_purchases, base_after_fifo_sale, base_after_lifo_sale};
ghost use Rattle.brk_model_examples.specs.Trading.{base_after_short_sale, base_after_covering_purchase, base_after_sale_of_all};
ghost use Rattle.brk_model_examples.specs.Standing.{positions_and_totals_of_base};

/// Shows a market purchase and its result, whose commission is computed from the completion price
/// and not from the estimate, with the base, without stored replies, the lot and the totals after
/// them.
pub fn first_purchase_opens_first_lot()
    ensures lines { BatchOutputsLines setting_base
        (codes "order,100,TMB,ABC,100,,cash,fifo,Ann,Lee,T10"
        ∷ codes "result,1,10.10" ∷ [])
        (codes "1,ok,1709251200016,1,SBMT,10.00,0.00,0.00,0.00,10.00,5.00,10000.00"
        ∷ codes "2,ok,1709251200017,10.10,0.00,-1025.10,2024-03-03,0.00,0.00,8974.90"
        ∷ codes "end,2,0,0" ∷ []) }
    ensures base { base_without_stored_replies (base_after_batch setting_base
        (codes "order,100,TMB,ABC,100,,cash,fifo,Ann,Lee,T10"
        ∷ codes "result,1,10.10" ∷ [])) ≡ base_after_first_purchase }
    ensures positions { positions_and_totals_of_base base_after_first_purchase 1 ≡ record {
      lots = (1, pos 100) ∷ [];
      changes = (1, pos 0, pos 100) ∷ [];
      summaries = pos 100 ∷ [];
      balances = pos 897490 ∷ [];
      brokers = (pos 1, 1010) ∷ [];
    } }
{}

/// Shows that a second purchase opens a second lot, and does not change the first.
pub fn second_purchase_opens_second_lot()
    ensures lines { BatchOutputsLines base_after_first_purchase
        (codes "order,100,TMB,ABC,200,,cash,fifo,Ann,Lee,T10"
        ∷ codes "result,2,12.00" ∷ [])
        (codes "1,ok,1709251200018,2,SBMT,10.00,0.00,0.00,0.00,20.00,5.00,9974.90"
        ∷ codes "2,ok,1709251200019,24.00,0.00,-2429.00,2024-03-03,0.00,0.00,6545.90"
        ∷ codes "end,2,0,0" ∷ []) }
    ensures base { base_without_stored_replies (base_after_batch base_after_first_purchase
        (codes "order,100,TMB,ABC,200,,cash,fifo,Ann,Lee,T10"
        ∷ codes "result,2,12.00" ∷ [])) ≡ base_after_two_purchases }
    ensures positions { positions_and_totals_of_base base_after_two_purchases 2 ≡ record {
      lots = (1, pos 100) ∷ (2, pos 200) ∷ [];
      changes = (2, pos 0, pos 200) ∷ [];
      summaries = pos 300 ∷ [];
      balances = pos 654590 ∷ [];
      brokers = (pos 2, 3410) ∷ [];
    } }
{}

/// Shows that a sale, first in first out, closes the first lot, reduces the second, and is taxed on
/// its gain.
pub fn sale_closes_first_lot_first()
    ensures lines { BatchOutputsLines base_after_two_purchases
        (codes "order,100,TMS,ABC,150,,cash,fifo,Ann,Lee,T10"
        ∷ codes "result,3,13.00" ∷ [])
        (codes "1,ok,1709251200020,3,SBMT,10.00,1610.00,1500.00,0.00,15.00,5.00,9545.90"
        ∷ codes "2,ok,1709251200021,19.50,68.00,1857.50,2024-03-03,1610.00,1950.00,8403.40"
        ∷ codes "end,2,0,0" ∷ []) }
    ensures base { base_without_stored_replies (base_after_batch base_after_two_purchases
        (codes "order,100,TMS,ABC,150,,cash,fifo,Ann,Lee,T10"
        ∷ codes "result,3,13.00" ∷ [])) ≡ base_after_fifo_sale }
    ensures positions { positions_and_totals_of_base base_after_fifo_sale 3 ≡ record {
      lots = (2, pos 150) ∷ [];
      changes = (1, pos 100, pos 0) ∷ (2, pos 200, pos 150) ∷ [];
      summaries = pos 150 ∷ [];
      balances = pos 840340 ∷ [];
      brokers = (pos 3, 5360) ∷ [];
    } }
{}

/// Shows that a sale, last in first out, reduces the second lot, does not change the first, and is
/// taxed on its gain.
pub fn lifo_sale_reduces_last_lot()
    ensures lines { BatchOutputsLines base_after_two_purchases
        (codes "order,100,TMS,ABC,150,,cash,lifo,Ann,Lee,T10"
        ∷ codes "result,3,13.00" ∷ [])
        (codes "1,ok,1709251200020,3,SBMT,10.00,1800.00,1500.00,0.00,15.00,5.00,9545.90"
        ∷ codes "2,ok,1709251200021,19.50,30.00,1895.50,2024-03-03,1800.00,1950.00,8441.40"
        ∷ codes "end,2,0,0" ∷ []) }
    ensures base { base_without_stored_replies (base_after_batch base_after_two_purchases
        (codes "order,100,TMS,ABC,150,,cash,lifo,Ann,Lee,T10"
        ∷ codes "result,3,13.00" ∷ [])) ≡ base_after_lifo_sale }
    ensures positions { positions_and_totals_of_base base_after_lifo_sale 3 ≡ record {
      lots = (1, pos 100) ∷ (2, pos 50) ∷ [];
      changes = (2, pos 200, pos 50) ∷ [];
      summaries = pos 150 ∷ [];
      balances = pos 844140 ∷ [];
      brokers = (pos 3, 5360) ∷ [];
    } }
{}

/// Shows that a sale of more shares than the position has closes all of them and opens a short lot.
pub fn excess_sale_opens_short_lot()
    ensures lines { BatchOutputsLines base_after_fifo_sale
        (codes "order,100,TMS,ABC,400,,cash,fifo,Ann,Lee,T10"
        ∷ codes "result,4,13.00" ∷ [])
        (codes "1,ok,1709251200022,4,SBMT,10.00,1800.00,1500.00,0.00,40.00,5.00,9903.40"
        ∷ codes "2,ok,1709251200023,52.00,30.00,5113.00,2024-03-03,1800.00,1950.00,13516.40"
        ∷ codes "end,2,0,0" ∷ []) }
    ensures base { base_without_stored_replies (base_after_batch base_after_fifo_sale
        (codes "order,100,TMS,ABC,400,,cash,fifo,Ann,Lee,T10"
        ∷ codes "result,4,13.00" ∷ [])) ≡ base_after_short_sale }
    ensures positions { positions_and_totals_of_base base_after_short_sale 4 ≡ record {
      lots = (4, negsuc 249) ∷ [];
      changes = (2, pos 150, pos 0) ∷ (4, pos 0, negsuc 249) ∷ [];
      summaries = negsuc 249 ∷ [];
      balances = pos 1351640 ∷ [];
      brokers = (pos 4, 10560) ∷ [];
    } }
{}

/// Shows that a purchase of more shares than were sold short closes the short lot, is taxed on its
/// gain, and opens a long lot.
pub fn purchase_covers_short_lot()
    ensures lines { BatchOutputsLines base_after_short_sale
        (codes "order,100,TMB,ABC,300,,cash,fifo,Ann,Lee,T10"
        ∷ codes "result,5,11.00" ∷ [])
        (codes "1,ok,1709251200024,5,SBMT,10.00,2500.00,3250.00,150.00,30.00,5.00,11016.40"
        ∷ codes "2,ok,1709251200025,33.00,100.00,-3438.00,2024-03-03,2750.00,3250.00,10078.40"
        ∷ codes "end,2,0,0" ∷ []) }
    ensures base { base_without_stored_replies (base_after_batch base_after_short_sale
        (codes "order,100,TMB,ABC,300,,cash,fifo,Ann,Lee,T10"
        ∷ codes "result,5,11.00" ∷ [])) ≡ base_after_covering_purchase }
    ensures positions { positions_and_totals_of_base base_after_covering_purchase 5 ≡ record {
      lots = (5, pos 50) ∷ [];
      changes = (4, negsuc 249, pos 0) ∷ (5, pos 0, pos 50) ∷ [];
      summaries = pos 50 ∷ [];
      balances = pos 1007840 ∷ [];
      brokers = (pos 5, 13860) ∷ [];
    } }
{}

/// Shows that a sale of all shares of a position closes its lot and deletes its summary row.
pub fn sale_of_all_leaves_no_lot()
    ensures lines { BatchOutputsLines base_after_covering_purchase
        (codes "order,100,TMS,ABC,50,,cash,fifo,Ann,Lee,T10"
        ∷ codes "result,6,11.00" ∷ [])
        (codes "1,ok,1709251200026,6,SBMT,10.00,550.00,500.00,0.00,5.00,5.00,10578.40"
        ∷ codes "2,ok,1709251200027,5.50,0.00,539.50,2024-03-03,550.00,550.00,10617.90"
        ∷ codes "end,2,0,0" ∷ []) }
    ensures base { base_without_stored_replies (base_after_batch base_after_covering_purchase
        (codes "order,100,TMS,ABC,50,,cash,fifo,Ann,Lee,T10"
        ∷ codes "result,6,11.00" ∷ [])) ≡ base_after_sale_of_all }
    ensures positions { positions_and_totals_of_base base_after_sale_of_all 6 ≡ record {
      lots = [];
      changes = (5, pos 50, pos 0) ∷ [];
      summaries = [];
      balances = pos 1061790 ∷ [];
      brokers = (pos 6, 14410) ∷ [];
    } }
{}

/// Shows that a completed margin trade has a settlement and no cash row.
pub fn margin_trade_has_no_cash_row()
    ensures lines { BatchOutputsLines setting_base
        (codes "order,100,TMB,ABC,100,,margin,fifo,Ann,Lee,T10"
        ∷ codes "result,1,10.10" ∷ [])
        (codes "1,ok,1709251200016,1,SBMT,10.00,0.00,0.00,0.00,10.00,5.00,10000.00"
        ∷ codes "2,ok,1709251200017,10.10,0.00,-1025.10,2024-03-03,0.00,0.00,10000.00"
        ∷ codes "end,2,0,0" ∷ []) }
    ensures settlement { map (λ row. row.cash_type) (tables_of_base (base_after_batch setting_base
        (codes "order,100,TMB,ABC,100,,margin,fifo,Ann,Lee,T10"
        ∷ codes "result,1,10.10" ∷ []))).settlements ≡ codes "Margin" ∷ [] }
    ensures no_cash { (tables_of_base (base_after_batch setting_base
        (codes "order,100,TMB,ABC,100,,margin,fifo,Ann,Lee,T10"
        ∷ codes "result,1,10.10" ∷ []))).moves ≡ [] }
{}
