ghost use Rattle.std.specs.Prelude.{◌∷◌, []};
ghost use Rattle.brk_model.specs.Parse.{read_charge};
ghost use Rattle.brk_ref.specs.Records.{abstract_charge};
ghost use Rattle.brk_ref.specs.Fields.{ParsesAs, texts_of_fields};

use crate::charge_amount::ChargeAmount;
use crate::numbers::parse_charge_amount;
use crate::tier::Tier;
use crate::trade_type::parse_type;
use brk_money::{Refusal, TradeType};

/// The charge, in cents, for an order of a type by a customer of a tier (a row of CHARGE).
#[derive(Clone, Copy)]
pub struct Charge {
    pub kind: TradeType,
    pub tier: Tier,
    pub amount: ChargeAmount,
}

fn parse_charge(kind: &[u8], tier: &[u8], amount: &[u8]) -> Result<Charge, Refusal>
    ensures { ParsesAs abstract_charge result (read_charge (kind.now ∷ tier.now ∷ amount.now ∷ [])) }
{
    let Some(tier) = Tier::parse(tier) else {
        return Err(Refusal::BadText);
    };
    let Some(amount) = parse_charge_amount(amount) else {
        return Err(Refusal::BadText);
    };
    let Some(kind) = parse_type(kind) else {
        return Err(Refusal::BadType);
    };
    Ok(Charge { kind, tier, amount })
}

/// Parses the fields TYPE, TIER and AMOUNT. Refuses with `BadText` (18), otherwise with `BadType`
/// (7).
pub fn check_charge(fields: &[&[u8]]) -> Result<Charge, Refusal>
    ensures { ParsesAs abstract_charge result (read_charge (texts_of_fields fields.now)) }
{
    let [kind, tier, amount] = fields else {
        return Err(Refusal::BadText);
    };
    parse_charge(kind, tier, amount)
}
