//! The rows of text updates, as they are stored under idempotency keys.
#![tactic(auto, unfolding(brk_model::specs::Rows::row_fields))]

ghost use Rattle.std.specs.Prelude.{◌≡◌, ◌∷◌, ◌++◌, IfOk, OnOk, decimal, string_bytes};
ghost use Rattle.brk_model.specs.Commands.{ChangeCashNames, ChangeCashTypes, ChangeExecutors};
ghost use Rattle.brk_model.specs.Rows as model;
ghost use Rattle.brk_ref_orders.specs.Records.{text_update_command};

use brk_money::Id;
use brk_ref::{Span, Symbol};
use brk_ref_orders::Update;
use std::alloc::{AllocError, Global};

// Appends the id of a trade that `upname` names.
fn append_updated_trade(row: &mut String, trade: Id) -> Result<(), AllocError>
    ensures { OnOk result (string_bytes row.new ≡ string_bytes row.old ++ 31 ∷ decimal trade) }
{
    write!(row, "\x1f{}", trade.get())
}

fn row_of_executor_update(alloc: Global, trades: &[Id]) -> Result<String, AllocError>
    ensures { IfOk result (λ row. string_bytes row ≡ model.row_text (ChangeExecutors trades.now)) }
{
    let mut row = String::from_str(alloc, "upname")?;
    for trade in trades {
        append_updated_trade(&mut row, *trade)?;
    }
    Ok(row)
}

fn row_of_cash_type_update(alloc: Global, account: Id, span: Span) -> Result<String, AllocError>
    ensures { IfOk result (λ row. string_bytes row ≡ model.row_text (ChangeCashTypes account span.first span.last)) }
{
    format!(in alloc;
        "upcash\x1f{}\x1f{}\x1f{}",
        account.get(),
        span.first.get().unsigned_abs(),
        span.last.get().unsigned_abs()
    )
}

fn row_of_cash_name_update(alloc: Global, symbol: &Symbol, span: Span) -> Result<String, AllocError>
    ensures { IfOk result (λ row. string_bytes row ≡ model.row_text (ChangeCashNames symbol.now span.first span.last)) }
{
    format!(in alloc;
        "uptext\x1f{}\x1f{}\x1f{}",
        symbol.as_str(),
        span.first.get().unsigned_abs(),
        span.last.get().unsigned_abs()
    )
}

/// Returns the row of a text update. A span is two stamps, in milliseconds since 1970-01-01 UTC.
pub fn row_of_update(alloc: Global, update: &Update) -> Result<String, AllocError>
    ensures { IfOk result (λ row. string_bytes row ≡ model.row_text (text_update_command update.now)) }
{
    match update {
        Update::Executors(trades) => row_of_executor_update(alloc, trades.ids()),
        Update::CashTypes { account, span } => row_of_cash_type_update(alloc, *account, *span),
        Update::CashNames { symbol, span } => row_of_cash_name_update(alloc, symbol, *span),
    }
}
