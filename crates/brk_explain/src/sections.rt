//! The parts of the explanations of an account and of a broker that are written row by row, each
//! with the number of its rows. After `Desk` only whole lines are written, after `Write` also a
//! prefix of the next one.

ghost use Rattle.std.specs.Prelude.{length};
ghost use Rattle.brk_explain.specs.ExplanationParts.{WritesCountedLines, account_cash_lines, broker_trade_lines, account_lot_lines};
ghost use Rattle.brk_model_explain.specs.AccountLines.{account_cash_rows_by_stamp};
ghost use Rattle.brk_model_explain.specs.BrokerLines.{completed_trades_of_broker};
ghost use Rattle.brk_model.specs.Statement.{holding_rows_of_account};
ghost use Rattle.brk_report.specs.StatementOutput.{PreservesDesk, HoldsForStoredTables};

use crate::visitors::{CashPostingWriter, OpenLotWriter, TradeCommissionWriter};
use brk_desk::Desk;
use brk_money::{Cents, Id, Stamp, Wide};
use brk_report::walk_faults::fault_from_walk_error;
use brk_report_lines::LinesFault;
use sqlite::Alter;
use std::alloc::Global;
use std::io::Write;

/// Writes the cash rows with stamps from 1970-01-01 to 9999-12-31, both included, sorted by stamp,
/// ascending. The balance before the first one is `opening`, in cents.
pub(crate) fn write_postings<W: Write, S: Alter>(
    alloc: Global,
    desk: &mut Desk<S>,
    account: Id,
    opening: Cents,
    writer: &mut W,
) -> Result<u64, LinesFault>
    ensures keeps { PreservesDesk S.Store desk.old desk.new }
    ensures written { HoldsForStoredTables S.Store desk.old desk.new
        (λ t. WritesCountedLines (account_cash_lines t account opening) (length (account_cash_rows_by_stamp t account))
        (W.contents writer.old) (W.contents writer.new) result) }
{
    let mut rows = CashPostingWriter {
        alloc,
        writer,
        balance: Wide::from(opening),
        count: 0,
    };
    let last = Stamp::nearest(Stamp::GREATEST);
    match desk.visit_cash_rows(account, Stamp::nearest(0), last, &mut rows) {
        Ok(()) => Ok(rows.count),
        Err(stop) => Err(fault_from_walk_error(stop)),
    }
}

/// Writes the lots sorted by symbol, then by opening stamp, both ascending.
pub(crate) fn write_open_lots<W: Write, S: Alter>(
    alloc: Global,
    desk: &mut Desk<S>,
    account: Id,
    writer: &mut W,
) -> Result<u64, LinesFault>
    ensures keeps { PreservesDesk S.Store desk.old desk.new }
    ensures written { HoldsForStoredTables S.Store desk.old desk.new
        (λ t. WritesCountedLines (account_lot_lines t account) (length (holding_rows_of_account t account))
        (W.contents writer.old) (W.contents writer.new) result) }
{
    let mut rows = OpenLotWriter {
        alloc,
        writer,
        count: 0,
    };
    match desk.visit_lots(account, &mut rows) {
        Ok(()) => Ok(rows.count),
        Err(stop) => Err(fault_from_walk_error(stop)),
    }
}

/// Writes the trades sorted by the stamp of completion, ascending.
pub(crate) fn write_commissions<W: Write, S: Alter>(
    alloc: Global,
    desk: &mut Desk<S>,
    broker: Id,
    writer: &mut W,
) -> Result<u64, LinesFault>
    ensures keeps { PreservesDesk S.Store desk.old desk.new }
    ensures written { HoldsForStoredTables S.Store desk.old desk.new
        (λ t. WritesCountedLines (broker_trade_lines t broker) (length (completed_trades_of_broker t broker))
        (W.contents writer.old) (W.contents writer.new) result) }
{
    let mut rows = TradeCommissionWriter {
        alloc,
        writer,
        total: Wide::new(0),
        count: 0,
    };
    match desk.visit_broker_trades(alloc, broker, &mut rows) {
        Ok(()) => Ok(rows.count),
        Err(ended) => Err(fault_from_walk_error(ended)),
    }
}
