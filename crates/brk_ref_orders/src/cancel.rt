ghost use Rattle.brk_model.specs.Parse.{read_id_of_trade_to_cancel};
ghost use Rattle.brk_ref.specs.Fields.{ParsesAs, texts_of_fields};

use brk_money::{Id, Refusal};
use brk_ref::parse_id;

/// Parses the field TRADE. Refuses with `BadText` (18).
pub fn parse_cancel(fields: &[&[u8]]) -> Result<Id, Refusal>
    ensures { ParsesAs (λ trade. trade) result (read_id_of_trade_to_cancel (texts_of_fields fields.now)) }
{
    let [trade] = fields else {
        return Err(Refusal::BadText);
    };
    let Some(trade) = parse_id(trade) else {
        return Err(Refusal::BadText);
    };
    Ok(trade)
}
