//! Visitors that write a line for each record, and count the records. After `Desk` nothing of the
//! line is written, after `Write` a prefix. Totals and counts are then unchanged, which no clause
//! states.

use brk_desk::Visitor;
use brk_explain_lines::{open_lot_text, posting_text};
use brk_explain_sums::trade_commission_text;
use brk_money::{CallFault, Wide};
use brk_ref::{CashRow, HoldingRow, TradeRow};
use brk_report::totals::{plus_amount, plus_commission};
use brk_report_lines::{LinesFault, write_line};
use std::alloc::Global;
use std::io::Write;

/// A visitor that writes a line for each cash row, with the balance after it, and counts the rows.
#[derive(Drop)]
pub struct CashPostingWriter<'a, W> {
    pub alloc: Global,
    pub writer: &'a mut W,
    pub balance: Wide,
    pub count: u64,
}

impl<W: Write> Visitor<CashRow, LinesFault> for CashPostingWriter<'_, W> {
    ghost use Rattle.std.specs.Prelude.{◌≡◌, ◌+◌, ◌+ℤ◌, [], ◌∷◌, refl};
    ghost use Rattle.std.proofs.Common.{◌∙◌};
    ghost use Rattle.std.specs.Io.KnownBytes.{Appends};
    ghost use Rattle.brk_ref.specs.Rows.{abstract_cash_row};
    ghost use Rattle.brk_model_explain.specs.AccountLines.{cash_posting_line};
    ghost use Rattle.brk_report_lines.specs.Written.{FailsWithinLines, line_with_line_feed};

    ghost ready = { λ _. Unit {0} };

    ghost leads = { λ p q. q.writer.ghost_name ≡ p.writer.ghost_name };

    ghost takes = { λ p r q. (q.balance ≡ p.balance +ℤ r.amount) × (q.count ≡ p.count + 1)
        × Appends (W.contents p.writer.now) (W.contents q.writer.now) (line_with_line_feed (cash_posting_line (abstract_cash_row r) (p.balance +ℤ r.amount))) };

    ghost stops = { λ p r e q. FailsWithinLines (cash_posting_line (abstract_cash_row r) (p.balance +ℤ r.amount)
        ∷ []) (W.contents p.writer.now) (W.contents q.writer.now) e };

    /// Writes the balance after the cash row.
    fn visit(&mut self, item: &CashRow) -> Result<(), LinesFault> {
        let balance = plus_amount(self.balance, item.amount)?;
        let Some(count) = self.count.checked_add(1) else {
            return Err(LinesFault::Desk(CallFault::Store));
        };
        write_line(self.writer, posting_text(self.alloc, item, balance))?;
        self.balance = balance;
        self.count = count;
        Ok(())
    }

    ghost reflexive = { λ _. refl };

    ghost transitive = { λ _ _ _ a b. b ∙ a };
}

/// A visitor that writes a line for each lot, and counts the lots.
#[derive(Drop)]
pub struct OpenLotWriter<'a, W> {
    pub alloc: Global,
    pub writer: &'a mut W,
    pub count: u64,
}

impl<W: Write> Visitor<HoldingRow, LinesFault> for OpenLotWriter<'_, W> {
    ghost use Rattle.std.specs.Prelude.{◌≡◌, ◌+◌, [], ◌∷◌, refl};
    ghost use Rattle.std.proofs.Common.{◌∙◌};
    ghost use Rattle.std.specs.Io.KnownBytes.{Appends};
    ghost use Rattle.brk_ref.specs.Rows.{abstract_holding_row};
    ghost use Rattle.brk_model_explain.specs.AccountLines.{open_lot_line};
    ghost use Rattle.brk_report_lines.specs.Written.{FailsWithinLines, line_with_line_feed};

    ghost ready = { λ _. Unit {0} };

    ghost leads = { λ p q. q.writer.ghost_name ≡ p.writer.ghost_name };

    ghost takes = { λ p r q. (q.count ≡ p.count + 1)
        × Appends (W.contents p.writer.now) (W.contents q.writer.now) (line_with_line_feed (open_lot_line (abstract_holding_row r))) };

    ghost stops = { λ p r e q. FailsWithinLines (open_lot_line (abstract_holding_row r) ∷ []) (W.contents p.writer.now) (W.contents q.writer.now) e };

    fn visit(&mut self, item: &HoldingRow) -> Result<(), LinesFault> {
        let Some(count) = self.count.checked_add(1) else {
            return Err(LinesFault::Desk(CallFault::Store));
        };
        write_line(self.writer, open_lot_text(self.alloc, item))?;
        self.count = count;
        Ok(())
    }

    ghost reflexive = { λ _. refl };

    ghost transitive = { λ _ _ _ a b. b ∙ a };
}

/// A visitor that writes a line for each trade, with the running total of the commissions, and
/// counts the trades.
#[derive(Drop)]
pub struct TradeCommissionWriter<'a, W> {
    pub alloc: Global,
    pub writer: &'a mut W,
    pub total: Wide,
    pub count: u64,
}

impl<W: Write> Visitor<TradeRow, LinesFault> for TradeCommissionWriter<'_, W> {
    ghost use Rattle.std.specs.Prelude.{◌≡◌, ◌+◌, ◌+ℤ◌, [], ◌∷◌, pos, refl};
    ghost use Rattle.std.proofs.Common.{◌∙◌};
    ghost use Rattle.std.specs.Io.KnownBytes.{Appends};
    ghost use Rattle.brk_ref.specs.Rows.{abstract_trade_row};
    ghost use Rattle.brk_model_explain.specs.BrokerLines.{trade_commission_line};
    ghost use Rattle.brk_report_lines.specs.Written.{FailsWithinLines, line_with_line_feed};

    ghost ready = { λ _. Unit {0} };

    ghost leads = { λ p q. q.writer.ghost_name ≡ p.writer.ghost_name };

    ghost takes = { λ p r q. (q.total ≡ p.total +ℤ pos r.commission) × (q.count ≡ p.count + 1)
        × Appends (W.contents p.writer.now) (W.contents q.writer.now) (line_with_line_feed (trade_commission_line (abstract_trade_row r) (p.total
        +ℤ pos r.commission))) };

    ghost stops = { λ p r e q. FailsWithinLines (trade_commission_line (abstract_trade_row r) (p.total +ℤ pos r.commission)
        ∷ []) (W.contents p.writer.now) (W.contents q.writer.now) e };

    /// Writes the total after the trade.
    fn visit(&mut self, item: &TradeRow) -> Result<(), LinesFault> {
        let total = plus_commission(self.total, item.commission)?;
        let Some(count) = self.count.checked_add(1) else {
            return Err(LinesFault::Desk(CallFault::Store));
        };
        write_line(self.writer, trade_commission_text(self.alloc, item, total))?;
        self.total = total;
        self.count = count;
        Ok(())
    }

    ghost reflexive = { λ _. refl };

    ghost transitive = { λ _ _ _ a b. b ∙ a };
}
