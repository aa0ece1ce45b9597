ghost use Rattle.std.specs.Prelude.{◌≡◌, bytes_eq};
ghost use Rattle.std.specs.Option.{ok_or};
ghost use Rattle.brk_model.specs.Forms.{read_trade_type};
ghost use Rattle.brk_money.specs.Kinds.{trade_type_code};
ghost use Rattle.brk_money.specs.declared.refusal.Refusal.TheVariants.{BadType};

use brk_money::TradeType;

fn type_has_code(kind: TradeType, bytes: &[u8]) -> bool
    ensures { result ≡ bytes_eq (trade_type_code kind) bytes.now }
{
    kind.code().as_bytes() == bytes
}

/// Parses the code of a type, such as `TMB`.
pub fn parse_type(bytes: &[u8]) -> Option<TradeType>
    ensures { ok_or result BadType ≡ read_trade_type bytes.now }
{
    if type_has_code(TradeType::MarketBuy, bytes) {
        return Some(TradeType::MarketBuy);
    }
    if type_has_code(TradeType::MarketSell, bytes) {
        return Some(TradeType::MarketSell);
    }
    if type_has_code(TradeType::StopLoss, bytes) {
        return Some(TradeType::StopLoss);
    }
    if type_has_code(TradeType::LimitSell, bytes) {
        return Some(TradeType::LimitSell);
    }
    if type_has_code(TradeType::LimitBuy, bytes) {
        return Some(TradeType::LimitBuy);
    }
    None
}
