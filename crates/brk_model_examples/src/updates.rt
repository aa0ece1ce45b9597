//! Text updates (Trade-Update, by name only).
#![tactic(auto, unfolding(crate::proofs::OnLiterals::model_on_literals))]

ghost use Rattle.std.specs.Prelude.{◌≡◌, ◌∷◌, [], Ok, map, codes};
ghost use Rattle.brk_model.specs.Tables.{tables_of_base};
ghost use Rattle.brk_model.specs.Updates.{updated_executor_name};
ghost use Rattle.brk_model_examples.specs.Batches.{base_after_batch, BatchOutputsLines, view_by_name_and_arguments};
ghost use Rattle.brk_model_examples.specs.Crowds.{setting_with_misleading_security_name};
ghost use Rattle.brk_model_examples.specs.Setting.{setting_base};
ghost use Rattle.brk_model_examples.specs.Trading.{base_after_fifo_sale};

/// Shows that `upname`, `upcash` and `uptext` reply with the number of trades that they select, and
/// that `upname` is refused with `BadText` (18) for a repeated id and with `NoTrade` (5) for an
/// unknown id. Shows also the updated texts of the first trade, and the updated cash types of all
/// three trades.
pub fn text_updates_reply_with_trade_count()
    ensures lines { BatchOutputsLines base_after_fifo_sale
        (codes "upname,1"
        ∷ codes "upname,1,1"
        ∷ codes "upname,1,9"
        ∷ codes "upcash,100,0,253402300799999"
        ∷ codes "uptext,ABC,0,253402300799999"
        ∷ codes "upcash,100,5,4" ∷ [])
        (codes "1,ok,1709251200022,1"
        ∷ codes "2,no,18"
        ∷ codes "3,no,5"
        ∷ codes "4,ok,1709251200023,3"
        ∷ codes "5,ok,1709251200024,3"
        ∷ codes "6,ok,1709251200025,0"
        ∷ codes "end,4,0,2" ∷ []) }
    ensures trade_lookup { view_by_name_and_arguments (base_after_batch base_after_fifo_sale
        (codes "upname,1"
        ∷ codes "upname,1,1"
        ∷ codes "upname,1,9"
        ∷ codes "upcash,100,0,253402300799999"
        ∷ codes "uptext,ABC,0,253402300799999"
        ∷ codes "upcash,100,5,4" ∷ [])) (codes "trades") (codes "1" ∷ [])
        ≡ Ok ((codes "trade" ∷ codes "1" ∷ codes "1709251200017" ∷ codes "CMPT" ∷ codes "TMB" ∷ codes "ABC" ∷ codes "100" ∷ codes "10.00" ∷ codes "Ann X Lee"
        ∷ codes "10.10" ∷ codes "5.00" ∷ codes "10.10" ∷ codes "0.00" ∷ codes "cash" ∷ codes "fifo" ∷ [])
        ∷ (codes "settlement" ∷ codes "Cash" ∷ codes "2024-03-03" ∷ codes "-1025.10" ∷ [])
        ∷ (codes "cash" ∷ codes "1709251200017" ∷ codes "-1025.10" ∷ codes "Market-Buy 100 Shares of Acme" ∷ [])
        ∷ (codes "history" ∷ codes "1709251200016" ∷ codes "SBMT" ∷ [])
        ∷ (codes "history" ∷ codes "1709251200017" ∷ codes "CMPT" ∷ [])
        ∷ []) }
    ensures cash_types { map (λ row. row.cash_type) (tables_of_base (base_after_batch base_after_fifo_sale
        (codes "upname,1"
        ∷ codes "upname,1,1"
        ∷ codes "upname,1,9"
        ∷ codes "upcash,100,0,253402300799999"
        ∷ codes "uptext,ABC,0,253402300799999"
        ∷ codes "upcash,100,5,4" ∷ []))).settlements ≡ codes "Cash" ∷ codes "Cash" ∷ codes "Cash" ∷ [] }
{}

/// Shows, on single names, that `upname` replaces each ` X ` in an executor's name by a space, from
/// the left without overlap. If the name contains no ` X `, each space is replaced by ` X `.
pub fn update_toggles_executor_name()
    ensures inserted { map (λ t. t.executor) (base_after_batch base_after_fifo_sale
        (codes "upname,1" ∷ [])).trades ≡ codes "Ann X Lee" ∷ codes "Ann Lee" ∷ codes "Ann Lee" ∷ [] }
    ensures removed { map (λ t. t.executor) (base_after_batch base_after_fifo_sale
        (codes "upname,1"
        ∷ codes "upname,1" ∷ [])).trades ≡ codes "Ann Lee" ∷ codes "Ann Lee" ∷ codes "Ann Lee" ∷ [] }
    ensures two_occurrences { updated_executor_name (codes "Ann X X Lee") ≡ codes "Ann X Lee" }
    ensures two_spaces { updated_executor_name (codes "Ann  Lee") ≡ codes "Ann X  X Lee" }
    ensures two_removed { updated_executor_name (codes "Ann X  X Lee") ≡ codes "Ann  Lee" }
    ensures at_start { updated_executor_name (codes "X Lee") ≡ codes "X X Lee" }
    ensures removed_at_start { updated_executor_name (codes "X X Lee") ≡ codes "X Lee" }
{}

/// Shows that `uptext` searches the whole text of a cash row, including the name of the security.
/// That name contains ` shares of `, so the text before it has ` Shares of ` after the first
/// update, and also after the second.
pub fn cash_name_update_searches_whole_text()
    ensures lines { BatchOutputsLines setting_with_misleading_security_name
        (codes "order,100,TMB,ABC,100,,cash,fifo,Ann,Lee,T10"
        ∷ codes "result,1,10.10"
        ∷ codes "uptext,ABC,0,253402300799999"
        ∷ codes "uptext,ABC,0,253402300799999" ∷ [])
        (codes "1,ok,1709251200016,1,SBMT,10.00,0.00,0.00,0.00,10.00,5.00,10000.00"
        ∷ codes "2,ok,1709251200017,10.10,0.00,-1025.10,2024-03-03,0.00,0.00,8974.90"
        ∷ codes "3,ok,1709251200018,1"
        ∷ codes "4,ok,1709251200019,1"
        ∷ codes "end,4,0,0" ∷ []) }
    ensures at_first { map (λ t. t.cash_name) (base_after_batch setting_with_misleading_security_name
        (codes "order,100,TMB,ABC,100,,cash,fifo,Ann,Lee,T10"
        ∷ codes "result,1,10.10" ∷ [])).trades ≡ codes "Market-Buy 100 shares of Big shares of Small" ∷ [] }
    ensures once { map (λ t. t.cash_name) (base_after_batch setting_with_misleading_security_name
        (codes "order,100,TMB,ABC,100,,cash,fifo,Ann,Lee,T10"
        ∷ codes "result,1,10.10"
        ∷ codes "uptext,ABC,0,253402300799999" ∷ [])).trades ≡ codes "Market-Buy 100 Shares of Big shares of Small" ∷ [] }
    ensures twice { map (λ t. t.cash_name) (base_after_batch setting_with_misleading_security_name
        (codes "order,100,TMB,ABC,100,,cash,fifo,Ann,Lee,T10"
        ∷ codes "result,1,10.10"
        ∷ codes "uptext,ABC,0,253402300799999"
        ∷ codes "uptext,ABC,0,253402300799999" ∷ [])).trades ≡ codes "Market-Buy 100 Shares of Big shares of Small" ∷ [] }
{}

/// Shows the text updates of a margin trade: `upcash` changes its cash type, a second `upcash`
/// changes it back, and `uptext` does not select the trade.
pub fn only_cash_type_of_margin_trade_is_updated()
    ensures once { map (λ t. t.cash_type) (base_after_batch setting_base
        (codes "order,100,TMB,ABC,100,,margin,fifo,Ann,Lee,T10"
        ∷ codes "result,1,10.10"
        ∷ codes "upcash,100,0,253402300799999" ∷ [])).trades ≡ codes "Margin Account" ∷ [] }
    ensures twice { map (λ t. t.cash_type) (base_after_batch setting_base
        (codes "order,100,TMB,ABC,100,,margin,fifo,Ann,Lee,T10"
        ∷ codes "result,1,10.10"
        ∷ codes "upcash,100,0,253402300799999"
        ∷ codes "upcash,100,0,253402300799999" ∷ [])).trades ≡ codes "Margin" ∷ [] }
    ensures text { BatchOutputsLines setting_base
        (codes "order,100,TMB,ABC,100,,margin,fifo,Ann,Lee,T10"
        ∷ codes "result,1,10.10"
        ∷ codes "uptext,ABC,0,253402300799999" ∷ [])
        (codes "1,ok,1709251200016,1,SBMT,10.00,0.00,0.00,0.00,10.00,5.00,10000.00"
        ∷ codes "2,ok,1709251200017,10.10,0.00,-1025.10,2024-03-03,0.00,0.00,10000.00"
        ∷ codes "3,ok,1709251200018,0"
        ∷ codes "end,3,0,0" ∷ []) }
{}
