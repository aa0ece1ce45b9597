//! The format checks of fields, the order of their refusals, and canonical texts.
#![tactic(auto, unfolding(crate::proofs::OnLiterals::model_on_literals))]

ghost use Rattle.std.specs.Prelude.{◌≡◌, ◌∷◌, [], Err, Some, None, pos, negsuc, codes};
ghost use Rattle.std.specs.List.{repeat};
ghost use Rattle.brk_money.specs.Spelling.{cents_of_text, decimal_number_of_text, day_text, day_of_text};
ghost use Rattle.brk_money.specs.declared.refusal.Refusal.TheVariants.{BadText, BadQty, BadPrice, BadType, TooMany};
ghost use Rattle.brk_money.specs.Moments.{greatest_day};
ghost use Rattle.brk_model.specs.Parse.{parse_row};
ghost use Rattle.brk_model_examples.specs.Batches.{BatchOutputsLines};
ghost use Rattle.brk_model_examples.specs.Setting.{setting_base};

/// Shows that a row with several malformed fields is refused by the first failed check in the
/// sequence text, quantity, price, type; that a market order with a price and a limit order without
/// one are refused with `BadPrice`; and that a feed of 21 ticks is refused with `TooMany`, but with
/// `BadPrice` if the price of one of them is malformed. A feed without ticks, a row of an unknown
/// kind and a row without fields are refused with `BadText`.
pub fn refusals_follow_format_check_order()
    ensures text_first { parse_row (codes "charge" ∷ codes "TMX" ∷ codes "9" ∷ codes "5.00" ∷ []) ≡ Err BadText }
    ensures qty_then { parse_row (codes "order" ∷ codes "1" ∷ codes "TMX" ∷ codes "ABC" ∷ codes "0" ∷ codes "x" ∷ codes "cash" ∷ codes "fifo" ∷ codes "A"
        ∷ codes "B" ∷ codes "C" ∷ []) ≡ Err BadQty }
    ensures price_then { parse_row (codes "order" ∷ codes "1" ∷ codes "TMX" ∷ codes "ABC" ∷ codes "1" ∷ codes "x" ∷ codes "cash" ∷ codes "fifo" ∷ codes "A"
        ∷ codes "B" ∷ codes "C" ∷ []) ≡ Err BadPrice }
    ensures type_then { parse_row (codes "order" ∷ codes "1" ∷ codes "TMX" ∷ codes "ABC" ∷ codes "1" ∷ [] ∷ codes "cash" ∷ codes "fifo" ∷ codes "A"
        ∷ codes "B" ∷ codes "C" ∷ []) ≡ Err BadType }
    ensures market_price { parse_row (codes "order" ∷ codes "1" ∷ codes "TMB" ∷ codes "ABC" ∷ codes "1" ∷ codes "1.00" ∷ codes "cash" ∷ codes "fifo"
        ∷ codes "A" ∷ codes "B" ∷ codes "C" ∷ []) ≡ Err BadPrice }
    ensures no_price { parse_row (codes "order" ∷ codes "1" ∷ codes "TLB" ∷ codes "ABC" ∷ codes "1" ∷ [] ∷ codes "cash" ∷ codes "fifo" ∷ codes "A" ∷ codes "B"
        ∷ codes "C" ∷ []) ≡ Err BadPrice }
    ensures ticks { parse_row (codes "feed" ∷ repeat 21 (codes "ABC" ∷ codes "1.00" ∷ codes "1" ∷ [])) ≡ Err TooMany }
    ensures bad_tick { parse_row (codes "feed" ∷ codes "ABC" ∷ codes "x" ∷ codes "1" ∷ repeat 20 (codes "ABC" ∷ codes "1.00" ∷ codes "1" ∷ [])) ≡ Err BadPrice }
    ensures no_tick { parse_row (codes "feed" ∷ []) ≡ Err BadText }
    ensures unknown { parse_row (codes "fead" ∷ codes "1" ∷ []) ≡ Err BadText }
    ensures no_field { parse_row [] ≡ Err BadText }
{}

/// Shows four canonical texts that parse as an amount or a number, and six other texts that do not:
/// minus zero, an amount with a leading zero, one decimal place, two zeros, a plus sign, and no
/// bytes.
pub fn only_canonical_texts_are_parsed()
    ensures cents { cents_of_text (codes "10000.00") ≡ Some (pos 1000000) }
    ensures minus { cents_of_text (codes "-0.01") ≡ Some (negsuc 0) }
    ensures minus_zero { cents_of_text (codes "-0.00") ≡ None }
    ensures needless_zero { cents_of_text (codes "010.00") ≡ None }
    ensures one_place { cents_of_text (codes "10.0") ≡ None }
    ensures number { decimal_number_of_text (codes "120") ≡ Some 120 }
    ensures zero { decimal_number_of_text (codes "0") ≡ Some 0 }
    ensures zeros { decimal_number_of_text (codes "00") ≡ None }
    ensures sign { decimal_number_of_text (codes "+1") ≡ None }
    ensures empty { decimal_number_of_text [] ≡ None }
{}

/// Shows that an account is refused with `BadText` (18) for three texts of its opening balance that
/// are not canonical.
pub fn noncanonical_opening_balance_is_refused()
    ensures { BatchOutputsLines setting_base
        (codes "account,101,10,1,Main,1,-0.00"
        ∷ codes "account,101,10,1,Main,1,010.00"
        ∷ codes "account,101,10,1,Main,1,10.0" ∷ [])
        (codes "1,no,18"
        ∷ codes "2,no,18"
        ∷ codes "3,no,18"
        ∷ codes "end,0,0,3" ∷ []) }
{}

/// Shows the texts of some days with their numbers, in days since 1970-01-01. A date that the
/// calendar does not have, and a text that is not canonical, parse as no day.
pub fn day_texts_match_day_numbers()
    ensures march { day_of_text (codes "2024-03-01") ≡ Some 19783 }
    ensures leap { day_of_text (codes "2024-02-29") ≡ Some 19782 }
    ensures no_leap { day_of_text (codes "2023-02-29") ≡ None }
    ensures first { day_text 0 ≡ codes "1970-01-01" }
    ensures last { day_text greatest_day ≡ codes "9999-12-31" }
    ensures short { day_of_text (codes "2024-3-01") ≡ None }
{}
