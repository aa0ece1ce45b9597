//! The explanations, from the facts that the desk reads to the lines that are written.

ghost use Rattle.brk_explain.specs.Requests.{abstract_explain_request};
ghost use Rattle.brk_explain.specs.ExplanationParts.{all_broker_lines, all_account_lines};
ghost use Rattle.brk_explain.specs.LinesOutput.{WriteLinesPost};
ghost use Rattle.brk_model_explain.specs.Explain.{TradeOf, AccountOf, HoldingOf, BrokerOf, explanation};
ghost use Rattle.brk_report.specs.StatementOutput.{PreservesDesk, HoldsForStoredTables};
ghost use Rattle.brk_report_lines.specs.Written.{WritesLines};

use crate::parse::ExplainRequest;
use crate::sections::{write_commissions, write_open_lots, write_postings};
use brk_desk::Desk;
use brk_explain_lines::{
    account_end_text, account_header_text, lots_head_text, trade_explanation_text,
};
use brk_explain_rows::{AccountDetails, BrokerDetails};
use brk_explain_sums::{broker_end_text, broker_header_text, holding_explanation_text};
use brk_money::{Id, Refusal};
use brk_ref::Symbol;
use brk_report_lines::{LinesFault, ReportFault, write_lines};
use sqlite::Alter;
use std::alloc::Global;
use std::io::Write;

// After `Desk` nothing is written, which no clause states: the text is made before it is written.
fn write_trade<W: Write, S: Alter>(
    alloc: Global,
    desk: &mut Desk<S>,
    trade: Id,
    writer: &mut W,
) -> Result<(), ReportFault>
    ensures told { WriteLinesPost S.Store desk.old desk.new (λ t. explanation t (TradeOf trade)) (W.contents writer.old) (W.contents writer.new) result }
{
    let details = match desk.trade_details(alloc, trade) {
        Ok(Some(details)) => details,
        Ok(None) => return Err(ReportFault::Refused(Refusal::NoTrade)),
        Err(fault) => return Err(ReportFault::Desk(fault.into())),
    };
    write_lines(writer, trade_explanation_text(alloc, &details))?;
    Ok(())
}

// Reads the cash rows and the lots row by row while it writes.
fn write_account_lines<W: Write, S: Alter>(
    alloc: Global,
    desk: &mut Desk<S>,
    account: Id,
    details: &AccountDetails,
    writer: &mut W,
) -> Result<(), LinesFault>
    ensures keeps { PreservesDesk S.Store desk.old desk.new }
    ensures written { HoldsForStoredTables S.Store desk.old desk.new
        (λ t. WritesLines (all_account_lines t account details.now) (W.contents writer.old) (W.contents writer.new) result) }
{
    let row = &details.account;
    write_lines(writer, account_header_text(alloc, row))?;
    let cash = write_postings(alloc, desk, account, row.account.opening, writer)?;
    write_lines(writer, lots_head_text(alloc, row))?;
    let lots = write_open_lots(alloc, desk, account, writer)?;
    write_lines(
        writer,
        account_end_text(alloc, row, &details.held, cash, lots),
    )
}

fn write_account<W: Write, S: Alter>(
    alloc: Global,
    desk: &mut Desk<S>,
    account: Id,
    writer: &mut W,
) -> Result<(), ReportFault>
    ensures told { WriteLinesPost S.Store desk.old desk.new (λ t. explanation t (AccountOf account)) (W.contents writer.old) (W.contents writer.new) result }
{
    let details = match desk.account_details(alloc, account) {
        Ok(Some(details)) => details,
        Ok(None) => return Err(ReportFault::Refused(Refusal::NoAccount)),
        Err(fault) => return Err(ReportFault::Desk(fault.into())),
    };
    write_account_lines(alloc, desk, account, &details, writer)?;
    Ok(())
}

// After `Desk` nothing is written, which no clause states: the text is made before it is written.
fn write_holding<W: Write, S: Alter>(
    alloc: Global,
    desk: &mut Desk<S>,
    account: Id,
    symbol: &Symbol,
    writer: &mut W,
) -> Result<(), ReportFault>
    ensures told { WriteLinesPost S.Store desk.old desk.new (λ t. explanation t (HoldingOf account symbol.now))
        (W.contents writer.old) (W.contents writer.new) result }
{
    let details = match desk.holding_details(alloc, account, symbol) {
        Ok(Ok(details)) => details,
        Ok(Err(refusal)) => return Err(ReportFault::Refused(refusal)),
        Err(fault) => return Err(ReportFault::Desk(fault.into())),
    };
    write_lines(writer, holding_explanation_text(alloc, &details))?;
    Ok(())
}

// Reads the completed trades row by row while it writes.
fn write_broker_lines<W: Write, S: Alter>(
    alloc: Global,
    desk: &mut Desk<S>,
    broker: Id,
    details: &BrokerDetails,
    writer: &mut W,
) -> Result<(), LinesFault>
    ensures keeps { PreservesDesk S.Store desk.old desk.new }
    ensures written { HoldsForStoredTables S.Store desk.old desk.new
        (λ t. WritesLines (all_broker_lines t broker details.now) (W.contents writer.old) (W.contents writer.new) result) }
{
    let row = &details.broker;
    write_lines(writer, broker_header_text(alloc, row))?;
    let trades = write_commissions(alloc, desk, broker, writer)?;
    write_lines(
        writer,
        broker_end_text(alloc, row, details.accounts, trades),
    )
}

fn write_broker<W: Write, S: Alter>(
    alloc: Global,
    desk: &mut Desk<S>,
    broker: Id,
    writer: &mut W,
) -> Result<(), ReportFault>
    ensures told { WriteLinesPost S.Store desk.old desk.new (λ t. explanation t (BrokerOf broker)) (W.contents writer.old) (W.contents writer.new) result }
{
    let details = match desk.broker_details(alloc, broker) {
        Ok(Some(details)) => details,
        Ok(None) => return Err(ReportFault::Refused(Refusal::NoBroker)),
        Err(fault) => return Err(ReportFault::Desk(fault.into())),
    };
    write_broker_lines(alloc, desk, broker, &details, writer)?;
    Ok(())
}

/// Writes the explanation of a trade, an account, a holding or a broker of the desk.
///
/// Fails with `Refused` and nothing written if a record does not exist: `NoTrade` (5), `NoAccount`
/// (1), `NoSecurity` (4; of a holding whose account exists) or `NoBroker` (3). Fails with
/// `Desk(Memory)`, or with `Desk(Store)` also if a row or a price that the explanation requires is
/// missing, or if an amount or a number exceeds its limit; whole lines are then written, perhaps
/// none, never the last one. After `Write` a prefix of the next line is written too, perhaps all of
/// it.
pub fn write_explanation<W: Write, S: Alter>(
    alloc: Global,
    desk: &mut Desk<S>,
    what: &ExplainRequest,
    writer: &mut W,
) -> Result<(), ReportFault>
    ensures explained { WriteLinesPost S.Store desk.old desk.new (λ t. explanation t (abstract_explain_request what.now))
        (W.contents writer.old) (W.contents writer.new) result }
{
    match what {
        ExplainRequest::Trade(trade) => write_trade(alloc, desk, *trade, writer),
        ExplainRequest::Account(account) => write_account(alloc, desk, *account, writer),
        ExplainRequest::Holding { account, symbol } => {
            write_holding(alloc, desk, *account, symbol, writer)
        }
        ExplainRequest::Broker(broker) => write_broker(alloc, desk, *broker, writer),
    }
}
