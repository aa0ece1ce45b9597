//! The order of rows with one stamp, one volume or one name.
#![tactic(auto, unfolding(crate::proofs::OnLiterals::model_on_literals))]

ghost use Rattle.std.specs.Prelude.{◌≡◌, ◌∷◌, [], Ok, codes};
ghost use Rattle.brk_model_examples.specs.Batches.{base_after_batch, view_by_name_and_arguments};
ghost use Rattle.brk_model_examples.specs.Waiting.{base_with_pending_orders};

/// Shows that views sort two trades with one stamp by id: descending in `recent` and `status`,
/// which have the most recent trade first, and ascending in `accounttrades`, `trades` and
/// `symboltrades`, which have the oldest trade first. In `recent`, status changes with one stamp
/// are also sorted by the id of the trade, descending.
pub fn trades_with_equal_stamps_are_sorted_by_id()
    ensures recent { view_by_name_and_arguments (base_after_batch base_with_pending_orders (codes "feed,ABC,10.01,100,ABC,9.50,200" ∷ [])) (codes "recent")
        (codes "100" ∷ [])
        ≡ Ok ((codes "trade" ∷ codes "2" ∷ codes "ABC" ∷ codes "10" ∷ [])
        ∷ (codes "trade" ∷ codes "1" ∷ codes "ABC" ∷ codes "10" ∷ [])
        ∷ (codes "trade" ∷ codes "3" ∷ codes "ABC" ∷ codes "10" ∷ [])
        ∷ (codes "history" ∷ codes "2" ∷ codes "Submitted" ∷ codes "1709251200019" ∷ [])
        ∷ (codes "history" ∷ codes "1" ∷ codes "Submitted" ∷ codes "1709251200019" ∷ [])
        ∷ (codes "history" ∷ codes "3" ∷ codes "Pending" ∷ codes "1709251200018" ∷ [])
        ∷ (codes "history" ∷ codes "2" ∷ codes "Pending" ∷ codes "1709251200017" ∷ [])
        ∷ (codes "history" ∷ codes "1" ∷ codes "Pending" ∷ codes "1709251200016" ∷ [])
        ∷ []) }
    ensures status { view_by_name_and_arguments (base_after_batch base_with_pending_orders (codes "feed,ABC,10.01,100,ABC,9.50,200" ∷ [])) (codes "status")
        (codes "100" ∷ [])
        ≡ Ok ((codes "Lee" ∷ codes "Ann" ∷ codes "Bo" ∷ [])
        ∷ (codes "2" ∷ codes "1709251200019" ∷ codes "Submitted" ∷ codes "Limit-Buy" ∷ codes "ABC" ∷ codes "10" ∷ codes "Ann Lee" ∷ codes "5.00"
        ∷ codes "Acme" ∷ codes "NYSE" ∷ [])
        ∷ (codes "1" ∷ codes "1709251200019" ∷ codes "Submitted" ∷ codes "Stop-Loss" ∷ codes "ABC" ∷ codes "10" ∷ codes "Ann Lee" ∷ codes "5.00"
        ∷ codes "Acme" ∷ codes "NYSE" ∷ [])
        ∷ (codes "3" ∷ codes "1709251200018" ∷ codes "Pending" ∷ codes "Limit-Sell" ∷ codes "ABC" ∷ codes "10" ∷ codes "Ann Lee" ∷ codes "5.00" ∷ codes "Acme"
        ∷ codes "NYSE" ∷ [])
        ∷ []) }
    ensures by_account { view_by_name_and_arguments (base_after_batch base_with_pending_orders (codes "feed,ABC,10.01,100,ABC,9.50,200" ∷ []))
        (codes "accounttrades") (codes "100" ∷ codes "1709251200019" ∷ codes "1709251200019" ∷ [])
        ≡ Ok ((codes "trade" ∷ codes "1" ∷ codes "1709251200019" ∷ codes "SBMT" ∷ codes "TSL" ∷ codes "ABC" ∷ codes "10" ∷ codes "9.50" ∷ codes "Ann Lee" ∷ []
        ∷ codes "5.00" ∷ codes "0.95" ∷ codes "0.00" ∷ codes "cash" ∷ codes "fifo" ∷ [])
        ∷ (codes "history" ∷ codes "1709251200016" ∷ codes "PNDG" ∷ [])
        ∷ (codes "history" ∷ codes "1709251200019" ∷ codes "SBMT" ∷ [])
        ∷ (codes "trade" ∷ codes "2" ∷ codes "1709251200019" ∷ codes "SBMT" ∷ codes "TLB" ∷ codes "ABC" ∷ codes "10" ∷ codes "10.00" ∷ codes "Ann Lee" ∷ []
        ∷ codes "5.00" ∷ codes "1.00" ∷ codes "0.00" ∷ codes "cash" ∷ codes "fifo" ∷ [])
        ∷ (codes "history" ∷ codes "1709251200017" ∷ codes "PNDG" ∷ [])
        ∷ (codes "history" ∷ codes "1709251200019" ∷ codes "SBMT" ∷ [])
        ∷ []) }
    ensures by_ids { view_by_name_and_arguments (base_after_batch base_with_pending_orders (codes "feed,ABC,10.01,100,ABC,9.50,200" ∷ [])) (codes "trades")
        (codes "2" ∷ codes "1" ∷ [])
        ≡ view_by_name_and_arguments (base_after_batch base_with_pending_orders (codes "feed,ABC,10.01,100,ABC,9.50,200" ∷ [])) (codes "accounttrades")
        (codes "100" ∷ codes "1709251200019" ∷ codes "1709251200019" ∷ []) }
    ensures by_symbol { view_by_name_and_arguments (base_after_batch base_with_pending_orders (codes "feed,ABC,10.01,100,ABC,9.50,200" ∷ []))
        (codes "symboltrades") (codes "ABC" ∷ codes "1709251200019" ∷ codes "1709251200019" ∷ [])
        ≡ view_by_name_and_arguments (base_after_batch base_with_pending_orders (codes "feed,ABC,10.01,100,ABC,9.50,200" ∷ [])) (codes "accounttrades")
        (codes "100" ∷ codes "1709251200019" ∷ codes "1709251200019" ∷ []) }
{}

/// Shows that the view `volume` sorts brokers by volume, descending, then by name and then by id,
/// both ascending. A repeated name counts once, an unknown name adds nothing, and the view of a
/// sector without pending requests is empty.
pub fn brokers_with_equal_volume_are_sorted_by_name()
    ensures tech { view_by_name_and_arguments (base_after_batch base_with_pending_orders
        (codes "broker,2,Bo"
        ∷ codes "broker,3,Al"
        ∷ codes "broker,4,Cy"
        ∷ codes "account,101,10,2,Side,0,0.00"
        ∷ codes "account,102,10,3,Third,0,0.00"
        ∷ codes "account,103,10,4,Last,0,0.00"
        ∷ codes "order,101,TLB,ABC,30,10.00,cash,fifo,Ann,Lee,T10"
        ∷ codes "order,102,TLB,ABC,30,10.00,cash,fifo,Ann,Lee,T10"
        ∷ codes "order,103,TLB,ABC,31,10.00,cash,fifo,Ann,Lee,T10" ∷ [])) (codes "volume")
        (codes "Tech" ∷ codes "Bo" ∷ codes "Cy" ∷ codes "Al" ∷ codes "Bo" ∷ codes "Zed" ∷ [])
        ≡ Ok ((codes "Cy" ∷ codes "4" ∷ codes "310.00" ∷ [])
        ∷ (codes "Al" ∷ codes "3" ∷ codes "300.00" ∷ [])
        ∷ (codes "Bo" ∷ codes "1" ∷ codes "300.00" ∷ [])
        ∷ (codes "Bo" ∷ codes "2" ∷ codes "300.00" ∷ [])
        ∷ []) }
    ensures other { view_by_name_and_arguments base_with_pending_orders (codes "volume") (codes "Food" ∷ codes "Bo" ∷ []) ≡ Ok ([]) }
{}
