//! The parts of the explanation of a broker. The functions fail with `Memory` only, and may then
//! have appended a part.

ghost use Rattle.std.specs.Prelude.{◌≡◌, ◌++◌, IfOk, OnOk};
ghost use Rattle.brk_ref.specs.Rows.{abstract_trade_row};
ghost use Rattle.brk_model_explain.specs.BrokerLines as lines;
ghost use Rattle.brk_model.specs.Statement.{text_of_lines};
ghost use Rattle.brk_ref.specs.Records.{abstract_broker_row};
ghost use Rattle.brk_report_lines.specs.Written.{line_with_line_feed};

use brk_explain_columns::{
    align_amount, align_number, end_line, put_amount_fact, put_dated_word, put_numbered,
    put_signed_fact, put_text_fact, put_text_line, put_title_line,
};
use brk_money::Wide;
use brk_ref::{BrokerRow, TradeRow};
use std::alloc::{AllocError, Global};

#[tactic(auto, unfolding(brk_model_explain::specs::BrokerLines::broker_header_lines))]
fn put_broker_head(out: &mut Vec<u8>, row: &BrokerRow) -> Result<(), AllocError>
    ensures { OnOk result (out.new.items ≡ out.old.items ++ text_of_lines (lines.broker_header_lines (abstract_broker_row row.now))) }
{
    put_title_line(out, "Broker ", row.broker.id)?;
    put_text_fact(out, "Name", row.broker.name.as_str().as_bytes())?;
    put_text_line(
        out,
        b"#      completed                       trade       account             commission                  total",
    )
}

/// Returns the lines before the trades: title, name and column headings.
pub fn broker_header_text(alloc: Global, row: &BrokerRow) -> Result<Vec<u8>, AllocError>
    ensures { IfOk result (λ text. text.items ≡ text_of_lines (lines.broker_header_lines (abstract_broker_row row.now))) }
{
    let mut text = Vec::new(alloc);
    put_broker_head(&mut text, row)?;
    Ok(text)
}

#[tactic(auto, unfolding(brk_model_explain::specs::BrokerLines::trade_commission_line))]
fn put_trade_line(
    alloc: Global,
    out: &mut Vec<u8>,
    row: &TradeRow,
    total: Wide,
) -> Result<(), AllocError>
    ensures { OnOk result (out.new.items ≡ out.old.items ++ line_with_line_feed (lines.trade_commission_line (abstract_trade_row row.now) total)) }
{
    put_dated_word(out, "Trade", row.stamp)?;
    align_number(out, 13, row.id.get())?;
    align_number(out, 13, row.account.get())?;
    align_amount(alloc, out, Wide::from(row.commission))?;
    align_amount(alloc, out, total)?;
    end_line(out)
}

/// Returns the line of a completed trade; `total`, in cents, is the sum of the commissions up to
/// and including it.
pub fn trade_commission_text(
    alloc: Global,
    row: &TradeRow,
    total: Wide,
) -> Result<Vec<u8>, AllocError>
    ensures { IfOk result (λ line. line.items ≡ line_with_line_feed (lines.trade_commission_line (abstract_trade_row row.now) total)) }
{
    let mut line = Vec::new(alloc);
    put_trade_line(alloc, &mut line, row, total)?;
    Ok(line)
}

// Writes the numbers of a broker's accounts and of their completed trades.
fn put_broker_count(out: &mut Vec<u8>, accounts: usize, trades: u64) -> Result<(), AllocError>
    ensures { OnOk result (out.new.items ≡ out.old.items ++ line_with_line_feed (lines.broker_counts_line accounts trades)) }
{
    put_numbered(out, "Accounts ", accounts as u64)?;
    put_numbered(out, ", trades ", trades)?;
    end_line(out)
}

#[tactic(auto, unfolding(brk_model_explain::specs::BrokerLines::broker_total_lines))]
fn put_broker_end(
    alloc: Global,
    out: &mut Vec<u8>,
    row: &BrokerRow,
    accounts: usize,
    trades: u64,
) -> Result<(), AllocError>
    ensures { OnOk result (out.new.items ≡ out.old.items ++ text_of_lines (lines.broker_total_lines (abstract_broker_row row.now) accounts trades)) }
{
    let commissions = Wide::new(i128::from(row.commissions));
    put_amount_fact(alloc, out, "Commissions", commissions)?;
    put_signed_fact(out, "Trades", row.trades)?;
    put_broker_count(out, accounts, trades)
}

/// Returns the lines after the trades: the totals in the broker's row, then `accounts` and
/// `trades`, the numbers of its accounts and of their completed trades.
pub fn broker_end_text(
    alloc: Global,
    row: &BrokerRow,
    accounts: usize,
    trades: u64,
) -> Result<Vec<u8>, AllocError>
    ensures { IfOk result (λ text. text.items ≡ text_of_lines (lines.broker_total_lines (abstract_broker_row row.now) accounts trades)) }
{
    let mut text = Vec::new(alloc);
    put_broker_end(alloc, &mut text, row, accounts, trades)?;
    Ok(text)
}
