//! The audit: one condition after another, of which the later suppose `Form` and `Status`.

ghost use Rattle.std.specs.Prelude.{◌≡◌, IfErr, IfOk};
ghost use Rattle.brk_money.specs.declared.fault.Fault.TheVariants.{Memory};
ghost use Rattle.brk_model.specs.Audit.{IsAuditResult};
ghost use Rattle.brk_trade_rows.specs.Schemas.{abstract_schema};
ghost use Rattle.brk_trade_rows.specs.Sheets.{abstract_sheets};

use crate::cash::meets_cash;
use crate::history::meets_history;
use crate::holding_lots::meets_lots;
use crate::requests::meets_requests;
use crate::settlements::meets_settlement;
use crate::status::meets_status;
use brk_audit_form::meets_form;
use brk_audit_sums::balances::meets_balance;
use brk_audit_sums::commissions::meets_commission;
use brk_audit_sums::counts::meets_count;
use brk_audit_sums::summaries::meets_summary;
use brk_money::{Condition, Fault};
use brk_trade_rows::Sheets;
use std::alloc::Global;

/// Returns the first condition of the schema of `sheets` that its rows fail, in the order `Form`,
/// `Status`, `Requests`, `Lots`, `History`, `Summary`, `Count`, `Commission`, `Settlement`, `Cash`,
/// `Balance`, or `None` if they pass the audit.
///
/// Fails with `Memory` only.
#[tactic(auto, using(crate::proofs::Chain::form_held, crate::proofs::Chain::statuses_held))]
pub fn audit_rows(alloc: Global, sheets: &Sheets) -> Result<Option<Condition>, Fault>
    ensures condition { IfOk result (λ answer. IsAuditResult (abstract_schema sheets.now.schema) (abstract_sheets sheets.now) answer) }
    ensures fault { IfErr result (λ fault. fault ≡ Memory) }
{
    if !meets_form(alloc, sheets.schema, sheets)? {
        return Ok(Some(Condition::Form));
    }
    if !meets_status(alloc, sheets)? {
        return Ok(Some(Condition::Status));
    }
    if !meets_requests(alloc, sheets)? {
        return Ok(Some(Condition::Requests));
    }
    if !meets_lots(alloc, sheets)? {
        return Ok(Some(Condition::Lots));
    }
    if !meets_history(alloc, sheets)? {
        return Ok(Some(Condition::History));
    }
    if !meets_summary(alloc, sheets)? {
        return Ok(Some(Condition::Summary));
    }
    if !meets_count(alloc, sheets)? {
        return Ok(Some(Condition::Count));
    }
    if !meets_commission(alloc, sheets)? {
        return Ok(Some(Condition::Commission));
    }
    if !meets_settlement(alloc, sheets)? {
        return Ok(Some(Condition::Settlement));
    }
    if !meets_cash(alloc, sheets.schema, sheets)? {
        return Ok(Some(Condition::Cash));
    }
    if !meets_balance(alloc, sheets)? {
        return Ok(Some(Condition::Balance));
    }
    Ok(None)
}
