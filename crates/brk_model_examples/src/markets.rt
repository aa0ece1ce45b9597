//! Feeds, triggers and cancels (Market-Feed).
#![tactic(auto, unfolding(crate::proofs::OnLiterals::model_on_literals))]

ghost use Rattle.std.specs.Prelude.{◌≡◌, ◌∷◌, ◌==◌, [], ℕ, Ok, map, filter, codes};
ghost use Rattle.brk_model.specs.Shares.{lot_touches_of_deal};
ghost use Rattle.brk_model.specs.Tables.{tables_of_base};
ghost use Rattle.brk_model_examples.specs.Batches.{base_after_batch, BatchOutputsLines, base_without_stored_replies, view_by_name_and_arguments};
ghost use Rattle.brk_model_examples.specs.Setting.{setting_base};
ghost use Rattle.brk_model_examples.specs.Waiting.{base_with_pending_orders, pending_order_rows};
ghost use Rattle.brk_model_examples.specs.Extremes.{setting_with_volume_near_limit};

/// Shows the answers to three pending orders and the base after them, without stored replies, and
/// that a feed of two ticks of their symbol triggers two of the trades, both at its second tick.
/// Shows after the feed the last price and the volume of the security, the trade of the remaining
/// request and the trades of the new status changes, and before and after the feed the view
/// `volume` of the trades' broker.
pub fn feed_triggers_pending_trades()
    ensures orders { BatchOutputsLines setting_base pending_order_rows
        (codes "1,ok,1709251200016,1,PNDG,9.50,0.00,0.00,0.00,0.95,5.00,10000.00"
        ∷ codes "2,ok,1709251200017,2,PNDG,10.00,0.00,0.00,0.00,1.00,5.00,10000.00"
        ∷ codes "3,ok,1709251200018,3,PNDG,10.50,0.00,0.00,0.00,1.05,5.00,10000.00"
        ∷ codes "end,3,0,0" ∷ []) }
    ensures base { base_without_stored_replies (base_after_batch setting_base pending_order_rows) ≡ base_with_pending_orders }
    ensures lines { BatchOutputsLines base_with_pending_orders
        (codes "feed,ABC,10.01,100,ABC,9.50,200" ∷ [])
        (codes "1,ok,1709251200019,1,2"
        ∷ codes "end,1,0,0" ∷ []) }
    ensures one_tick { BatchOutputsLines base_with_pending_orders
        (codes "feed,ABC,10.01,100" ∷ [])
        (codes "1,ok,1709251200019"
        ∷ codes "end,1,0,0" ∷ []) }
    ensures before { view_by_name_and_arguments base_with_pending_orders (codes "volume") (codes "Tech" ∷ codes "Bo" ∷ [])
        ≡ Ok ((codes "Bo" ∷ codes "1" ∷ codes "300.00" ∷ [])
        ∷ []) }
    ensures after { view_by_name_and_arguments (base_after_batch base_with_pending_orders
        (codes "feed,ABC,10.01,100,ABC,9.50,200" ∷ [])) (codes "volume") (codes "Tech" ∷ codes "Bo" ∷ [])
        ≡ Ok ((codes "Bo" ∷ codes "1" ∷ codes "105.00" ∷ [])
        ∷ []) }
    ensures prices { (tables_of_base (base_after_batch base_with_pending_orders
        (codes "feed,ABC,10.01,100,ABC,9.50,200" ∷ []))).last_trades
        ≡ record { symbol = codes "ABC"; stamp = 1709251200019; price = 950; volume = 300 } ∷ [] }
    ensures requests { map {B = ℕ} (λ r. r.trade) (tables_of_base (base_after_batch base_with_pending_orders
        (codes "feed,ABC,10.01,100,ABC,9.50,200" ∷ []))).requests ≡ 3 ∷ [] }
    ensures history { map {B = ℕ} (λ h. h.trade) (filter (λ h. h.stamp == 1709251200019) (tables_of_base (base_after_batch base_with_pending_orders
        (codes "feed,ABC,10.01,100,ABC,9.50,200" ∷ []))).history) ≡ 1 ∷ 2 ∷ [] }
{}

/// Shows that the cancel of a pending trade is accepted, that the cancel of a canceled or a
/// submitted trade is refused with `WrongStatus` (13) and that of an unknown trade with `NoTrade`
/// (5), and that a feed is refused with `NoSecurity` (4) if a security does not exist and with
/// `BadText` (18) if a tick is incomplete. Shows also the submitted trades and an estimate after a
/// cancel and a feed.
pub fn cancel_needs_pending_trade()
    ensures lines { BatchOutputsLines base_with_pending_orders
        (codes "cancel,1"
        ∷ codes "cancel,1"
        ∷ codes "feed,ABC,9.50,100"
        ∷ codes "cancel,2"
        ∷ codes "cancel,9"
        ∷ codes "feed,ABC,9.60,1,QQQ,1.00,1"
        ∷ codes "feed,ABC,9.60" ∷ [])
        (codes "1,ok,1709251200019,CNCL"
        ∷ codes "2,no,13,CNCL"
        ∷ codes "3,ok,1709251200020,2"
        ∷ codes "4,no,13,SBMT"
        ∷ codes "5,no,5"
        ∷ codes "6,no,4"
        ∷ codes "7,no,18"
        ∷ codes "end,2,0,5" ∷ []) }
    ensures submitted { view_by_name_and_arguments (base_after_batch base_with_pending_orders
        (codes "cancel,1"
        ∷ codes "feed,ABC,9.50,100" ∷ [])) (codes "submitted") ([])
        ≡ Ok ((codes "2" ∷ codes "TLB" ∷ codes "ABC" ∷ codes "10" ∷ codes "10.00" ∷ [])
        ∷ []) }
    ensures estimate { view_by_name_and_arguments (base_after_batch base_with_pending_orders
        (codes "cancel,1"
        ∷ codes "feed,ABC,9.50,100" ∷ [])) (codes "estimate") (codes "100" ∷ codes "TMB" ∷ codes "ABC" ∷ codes "100" ∷ [] ∷ codes "cash" ∷ codes "fifo"
        ∷ codes "Ann" ∷ codes "Lee" ∷ codes "T10" ∷ [])
        ≡ Ok ((codes "9.50" ∷ codes "0.00" ∷ codes "0.00" ∷ codes "0.00" ∷ codes "9.50" ∷ codes "5.00" ∷ codes "10000.00" ∷ [])
        ∷ []) }
{}

/// Shows that a feed may raise the volume of a security to its limit, and is refused with `Range`
/// (14) if one tick, or two ticks together, would raise it above the limit.
pub fn feed_above_volume_limit_is_refused()
    ensures at_limit { BatchOutputsLines setting_with_volume_near_limit
        (codes "feed,ABC,10.00,100" ∷ [])
        (codes "1,ok,1709251200016"
        ∷ codes "end,1,0,0" ∷ []) }
    ensures above_limit { BatchOutputsLines setting_with_volume_near_limit
        (codes "feed,ABC,10.00,101"
        ∷ codes "feed,ABC,10.00,100,ABC,10.00,1" ∷ [])
        (codes "1,no,14,volume"
        ∷ codes "2,no,14,volume"
        ∷ codes "end,0,0,2" ∷ []) }
{}
