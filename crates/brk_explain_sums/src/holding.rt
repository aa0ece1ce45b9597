//! The text of the explanation of a holding. After an error a part of it may be appended.

ghost use Rattle.std.specs.Prelude.{◌≡◌, ◌++◌, IfOk, OnOk};
ghost use Rattle.brk_model_explain.specs.HoldingLines as lines;
ghost use Rattle.brk_explain_sums.specs.HoldingTexts.{lines_of_holding_details};
ghost use Rattle.brk_model.specs.Statement.{text_of_lines};
ghost use Rattle.brk_ref.specs.Records.{abstract_account_row, abstract_security_row};
ghost use Rattle.brk_report_lines.specs.Written.{line_with_line_feed};

use crate::holding_totals::put_holding_end;
use crate::lot_lines::put_lot_histories;
use crate::trade_lines::put_holding_trades;
use brk_explain_columns::{put_numbered, put_text, put_text_fact, put_text_line};
use brk_explain_rows::HoldingDetails;
use brk_money::{CallFault, Id};
use brk_ref::{AccountRow, Security};
use std::alloc::{AllocError, Global};

fn put_head_title(out: &mut Vec<u8>, account: Id, symbol: &[u8]) -> Result<(), AllocError>
    ensures { OnOk result (out.new.items ≡ out.old.items ++ line_with_line_feed (lines.holding_title account symbol.now)) }
{
    put_numbered(out, "Holding of account ", account.get())?;
    put_text(out, b" in ")?;
    put_text(out, symbol)?;
    put_text_line(out, b", times in UTC")
}

#[tactic(auto, unfolding(brk_model_explain::specs::HoldingLines::holding_header_lines))]
fn put_head_lines(
    out: &mut Vec<u8>,
    row: &AccountRow,
    security: &Security,
) -> Result<(), AllocError>
    ensures { OnOk result (out.new.items
        ≡ out.old.items ++ text_of_lines (lines.holding_header_lines (abstract_account_row row.now) (abstract_security_row security.now))) }
{
    let account = &row.account;
    put_head_title(out, account.id, security.symbol.as_str().as_bytes())?;
    put_text_fact(out, "Account name", account.name.as_str().as_bytes())?;
    put_text_fact(out, "Security", security.name.as_str().as_bytes())?;
    put_text_line(
        out,
        b"#      completed                       trade      shares      price            value        held type",
    )?;
    Ok(())
}

fn put_lot_header(out: &mut Vec<u8>) -> Result<(), AllocError>
    ensures { OnOk result (out.new.items ≡ out.old.items ++ line_with_line_feed lines.lot_columns_header) }
{
    put_text_line(
        out,
        b"#      opened or changed               trade      shares      price     cost or gain        left",
    )
}

#[tactic(auto, unfolding(brk_model_explain::specs::HoldingLines::holding_lines_from_trades_and_lots))]
fn put_holding_lines(
    alloc: Global,
    out: &mut Vec<u8>,
    details: &HoldingDetails,
) -> Result<(), CallFault>
    ensures { OnOk result (out.new.items ≡ out.old.items ++ text_of_lines (lines_of_holding_details details.now)) }
{
    let done = details.done.as_slice();
    let lots = details.lots.as_slice();
    put_head_lines(out, &details.account, &details.security)?;
    put_holding_trades(alloc, out, done)?;
    put_lot_header(out)?;
    put_lot_histories(alloc, out, lots)?;
    put_holding_end(alloc, out, done, lots, details.shares, details.price)?;
    Ok(())
}

/// Returns all lines of the explanation of a holding. Fails with `Store` if an amount, a quantity
/// or a count overflows, or if a trade has no price.
pub fn holding_explanation_text(
    alloc: Global,
    details: &HoldingDetails,
) -> Result<Vec<u8>, CallFault>
    ensures { IfOk result (λ text. text.items ≡ text_of_lines (lines_of_holding_details details.now)) }
{
    let mut text = Vec::new(alloc);
    put_holding_lines(alloc, &mut text, details)?;
    Ok(text)
}
