//! The words of an order: `cash` or `margin`, `lifo` or `fifo`.

ghost use Rattle.std.specs.Prelude.{◌≡◌};
ghost use Rattle.brk_model.specs.Rows as model;

pub fn cash_or_margin_word(is_cash: bool) -> &'static str
    ensures { result.now ≡ model.cash_or_margin_word is_cash }
{
    if is_cash { "cash" } else { "margin" }
}

pub fn lifo_or_fifo_word(is_lifo: bool) -> &'static str
    ensures { result.now ≡ model.lifo_or_fifo_word is_lifo }
{
    if is_lifo { "lifo" } else { "fifo" }
}
