ghost use Rattle.std.specs.Prelude.{◌≡◌, ◌↔◌, IsTrue};
ghost use Rattle.brk_money.specs.Kinds.{is_market_type, side_of_trade_type, trade_type_code, trade_type_name};
ghost use Rattle.brk_money.specs.declared.side.Side.TheVariants.{Sell};

use crate::side::Side;

/// The type of a trade (TT_ID, Trade-Order).
#[derive(Clone, Copy, Debug, PartialEq, Eq)]
pub enum TradeType {
    MarketBuy,
    MarketSell,
    StopLoss,
    LimitSell,
    LimitBuy,
}

impl TradeType {
    /// Returns the three-letter code of the type in tables and rows.
    pub fn code(self) -> &'static str
        ensures { result.now ≡ trade_type_code self }
    {
        match self {
            TradeType::MarketBuy => "TMB",
            TradeType::MarketSell => "TMS",
            TradeType::StopLoss => "TSL",
            TradeType::LimitSell => "TLS",
            TradeType::LimitBuy => "TLB",
        }
    }

    /// Returns the name of the type (TT_NAME). The name of a trade's cash row begins with it, and an
    /// audit compares it, so another text would fail the audit of existing files.
    pub fn name(self) -> &'static str
        ensures { result.now ≡ trade_type_name self }
    {
        match self {
            TradeType::MarketBuy => "Market-Buy",
            TradeType::MarketSell => "Market-Sell",
            TradeType::StopLoss => "Stop-Loss",
            TradeType::LimitSell => "Limit-Sell",
            TradeType::LimitBuy => "Limit-Buy",
        }
    }

    pub fn side(self) -> Side
        ensures { result ≡ side_of_trade_type self }
    {
        match self {
            TradeType::MarketBuy | TradeType::LimitBuy => Side::Buy,
            TradeType::MarketSell | TradeType::StopLoss | TradeType::LimitSell => Side::Sell,
        }
    }

    /// Returns true if a trade of this type sells shares (TT_IS_SELL).
    pub fn is_sell(self) -> bool
        ensures { IsTrue result ↔ (side_of_trade_type self ≡ Sell) }
    {
        self.side() == Side::Sell
    }

    /// Returns true if a trade of this type is executed at the market price (TT_IS_MRKT).
    pub fn is_market(self) -> bool
        ensures { result ≡ is_market_type self }
    {
        matches!(self, TradeType::MarketBuy | TradeType::MarketSell)
    }
}
