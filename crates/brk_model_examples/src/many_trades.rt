//! More trades than a view returns or an update changes.
#![tactic(auto, unfolding(crate::proofs::OnLiterals::model_on_literals))]

ghost use Rattle.std.specs.Prelude.{◌≡◌, ◌∷◌, ◌++◌, [], Ok, codes, decimal, map, replicate};
ghost use Rattle.std.specs.List.{range_with_len};
ghost use Rattle.brk_model_examples.specs.Batches.{base_after_batch, BatchOutputsLines, view_by_name_and_arguments};
ghost use Rattle.brk_model_examples.specs.Crowds.{setting_with_fifty_one_pending_trades, first_fields_of_view, trade_ids_of_view};
ghost use Rattle.brk_model_examples.specs.Crowds.{setting_with_twenty_one_margin_purchases};

/// Shows, for an account with fifty-one pending trades, that the view `recent` has the ids of the
/// ten with the latest stamps, and the view `status`, after the customer's name, those of the fifty
/// with the latest stamps, both with the latest first.
pub fn views_return_latest_trades()
    ensures ten { trade_ids_of_view (view_by_name_and_arguments setting_with_fifty_one_pending_trades (codes "recent") (codes "100" ∷ []))
        ≡ codes "51" ∷ codes "50" ∷ codes "49" ∷ codes "48" ∷ codes "47" ∷ codes "46" ∷ codes "45" ∷ codes "44" ∷ codes "43" ∷ codes "42" ∷ [] }
    ensures fifty { first_fields_of_view (view_by_name_and_arguments setting_with_fifty_one_pending_trades (codes "status") (codes "100" ∷ []))
        ≡ codes "Lee" ∷ map (λ n. decimal n)
        (51 ∷ 50 ∷ 49 ∷ 48 ∷ 47 ∷ 46 ∷ 45 ∷ 44 ∷ 43 ∷ 42 ∷ 41 ∷ 40 ∷ 39 ∷ 38 ∷ 37 ∷ 36 ∷ 35 ∷ 34 ∷ 33 ∷ 32 ∷ 31 ∷ 30 ∷ 29 ∷ 28 ∷ 27 ∷ 26
        ∷ 25 ∷ 24 ∷ 23 ∷ 22 ∷ 21 ∷ 20 ∷ 19 ∷ 18 ∷ 17 ∷ 16 ∷ 15 ∷ 14 ∷ 13 ∷ 12 ∷ 11 ∷ 10 ∷ 9 ∷ 8 ∷ 7 ∷ 6 ∷ 5 ∷ 4 ∷ 3 ∷ 2 ∷ []) }
{}

/// Shows, for fifty-one pending trades, that the lookup by account from the stamp of the third
/// trade on has the ids of twenty trades, from the third on, and the lookup by symbol from the
/// stamp 0 on those of the first twenty.
pub fn lookups_return_first_twenty_trades()
    ensures by_account { trade_ids_of_view (view_by_name_and_arguments setting_with_fifty_one_pending_trades (codes "accounttrades")
        (codes "100" ∷ codes "1709251200018" ∷ codes "1709251200066" ∷ []))
        ≡ map (λ n. decimal n) (range_with_len 3 20) }
    ensures by_symbol { trade_ids_of_view (view_by_name_and_arguments setting_with_fifty_one_pending_trades (codes "symboltrades")
        (codes "ABC" ∷ codes "0" ∷ codes "1709251200066" ∷ []))
        ≡ map (λ n. decimal n) (range_with_len 1 20) }
{}

/// Shows that `upcash` updates the cash types of the first twenty of twenty-one completed margin
/// trades, and replies with the number 20.
pub fn update_changes_first_twenty_trades()
    ensures reply { BatchOutputsLines setting_with_twenty_one_margin_purchases (codes "upcash,100,0,253402300799999" ∷ [])
        (codes "1,ok,1709251200058,20"
        ∷ codes "end,1,0,0" ∷ []) }
    ensures cash_types { map (λ t. t.cash_type) (base_after_batch setting_with_twenty_one_margin_purchases (codes "upcash,100,0,253402300799999" ∷ [])).trades
        ≡ replicate 20 (codes "Margin Account") ++ codes "Margin" ∷ [] }
{}

/// Shows that the view `lots` returns the id of a sale that closes twenty-one lots, and the first
/// twenty changes of these lots by stamp: the purchases that opened twenty of them.
pub fn lots_view_returns_first_twenty_changes()
    ensures { view_by_name_and_arguments (base_after_batch setting_with_twenty_one_margin_purchases
        (codes "order,100,TMS,ABC,21,,cash,fifo,Ann,Lee,T10"
        ∷ codes "result,22,10.00" ∷ [])) (codes "lots") (codes "100" ∷ codes "1709251200059" ∷ [])
        ≡ Ok ((codes "22" ∷ [])
        ∷ map (λ n. decimal n ∷ decimal n ∷ codes "0" ∷ codes "1" ∷ []) (range_with_len 1 20)) }
{}
