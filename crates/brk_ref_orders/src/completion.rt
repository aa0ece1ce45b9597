ghost use Rattle.brk_model.specs.Parse.{read_complete_trade_command};
ghost use Rattle.brk_ref_orders.specs.Records.{completion_command};
ghost use Rattle.brk_ref.specs.Fields.{ParsesAs, texts_of_fields};

use brk_money::{Id, Price, Refusal};
use brk_ref::{parse_id, parse_price};

/// The requested completion of a submitted trade (Trade-Result).
#[derive(Clone, Copy)]
pub struct Completion {
    pub trade: Id,
    /// The price per share at which the trade was executed.
    pub price: Price,
}

/// Parses the fields TRADE and PRICE. Refuses with `BadText` (18), otherwise with `BadPrice` (9).
pub fn parse_completion(fields: &[&[u8]]) -> Result<Completion, Refusal>
    ensures { ParsesAs completion_command result (read_complete_trade_command (texts_of_fields fields.now)) }
{
    let [trade, price] = fields else {
        return Err(Refusal::BadText);
    };
    let Some(trade) = parse_id(trade) else {
        return Err(Refusal::BadText);
    };
    let Some(price) = parse_price(price) else {
        return Err(Refusal::BadPrice);
    };
    Ok(Completion { trade, price })
}
