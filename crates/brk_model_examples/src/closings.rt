//! Deals against two lots: the shares that they close, from either end, and the shares that they
//! open.
#![tactic(auto, unfolding(crate::proofs::OnLiterals::model_on_literals))]

ghost use Rattle.std.specs.Prelude.{◌≡◌, ◌∷◌, [], pos, true, false};
ghost use Rattle.brk_money.specs.declared.side.Side.TheVariants.{Buy, Sell};
ghost use Rattle.brk_model_examples.specs.Batches.{base_after_batch};
ghost use Rattle.brk_model_examples.specs.Sales.{deal_against_two_lots, effect_of_deal_on_two_lots};

/// Shows the effect of six single deals at 13.00 against a lot of 100 shares at 10.10 and a later
/// lot of 200 shares at 12.00: five sales, of which one closes the last shares first and one sells
/// more shares than the lots have, and a purchase, which closes no share.
pub fn deals_close_shares_of_two_lots()
    ensures part_of_first_lot { effect_of_deal_on_two_lots (deal_against_two_lots Sell 99 false)
        ≡ record { touched = record { lot = 1; before = pos 100; after = pos 1 } ∷ []; opened = 0; buy_value = 99990; sell_value = 128700 } }
    ensures first_lot { effect_of_deal_on_two_lots (deal_against_two_lots Sell 100 false)
        ≡ record { touched = record { lot = 1; before = pos 100; after = pos 0 } ∷ []; opened = 0; buy_value = 101000; sell_value = 130000 } }
    ensures part_of_second_lot { effect_of_deal_on_two_lots (deal_against_two_lots Sell 150 false)
        ≡ record {
          touched = record { lot = 1; before = pos 100; after = pos 0 } ∷ record { lot = 2; before = pos 200; after = pos 150 }
              ∷ [];
          opened = 0;
          buy_value = 161000;
          sell_value = 195000;
        } }
    ensures last_in_first_out { effect_of_deal_on_two_lots (deal_against_two_lots Sell 150 true)
        ≡ record { touched = record { lot = 2; before = pos 200; after = pos 50 } ∷ []; opened = 0; buy_value = 180000; sell_value = 195000 } }
    ensures more_than_all_shares { effect_of_deal_on_two_lots (deal_against_two_lots Sell 301 false)
        ≡ record {
          touched = record { lot = 1; before = pos 100; after = pos 0 } ∷ record { lot = 2; before = pos 200; after = pos 0 }
              ∷ [];
          opened = 1;
          buy_value = 341000;
          sell_value = 390000;
        } }
    ensures purchase { effect_of_deal_on_two_lots (deal_against_two_lots Buy 5 false)
        ≡ record { touched = []; opened = 5; buy_value = 0; sell_value = 0 } }
{}
