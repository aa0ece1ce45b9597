ghost use Rattle.std.specs.Prelude.{◌≡◌};
ghost use Rattle.brk_money.specs.OrderTypes.{trade_type_of_order_type, price_of_order_type};

use crate::price::Price;
use crate::trade_type::TradeType;

/// The type of an order, with the price per share that it asks for unless it is a market type
/// (TT_ID, Trade-Order).
#[derive(Clone, Copy)]
pub enum OrderType {
    MarketBuy,
    MarketSell,
    StopLoss(Price),
    LimitSell(Price),
    LimitBuy(Price),
}

impl OrderType {
    /// Returns the type of the trade that the order creates.
    pub fn kind(self) -> TradeType
        ensures { result ≡ trade_type_of_order_type self }
    {
        match self {
            OrderType::MarketBuy => TradeType::MarketBuy,
            OrderType::MarketSell => TradeType::MarketSell,
            OrderType::StopLoss(_) => TradeType::StopLoss,
            OrderType::LimitSell(_) => TradeType::LimitSell,
            OrderType::LimitBuy(_) => TradeType::LimitBuy,
        }
    }

    pub fn price(self) -> Option<Price>
        ensures { result ≡ price_of_order_type self }
    {
        match self {
            OrderType::MarketBuy | OrderType::MarketSell => None,
            OrderType::StopLoss(price) | OrderType::LimitSell(price) | OrderType::LimitBuy(price) =>
                Some(price),
        }
    }
}
