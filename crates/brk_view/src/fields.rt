//! The records of any view as texts; those of submitted trades and estimates are formed here.

ghost use Rattle.std.specs.Prelude.{◌≡◌, ◌∷◌, [], IfOk, OnErr, Err, map};
ghost use Rattle.brk_trade_plans.specs.Replies.{estimate_from_model};
ghost use Rattle.brk_model.specs.Commands as model;
ghost use Rattle.brk_model.specs.Rows.{estimate_fields};
ghost use Rattle.brk_money.specs.declared.fault.Fault.TheVariants.{Memory};
ghost use Rattle.brk_view_rows.specs.Views.{estimate_record, records_of_view, texts_of_record, texts_of_records, submitted_trade_record};
ghost use Rattle.brk_view_rows.specs.declared.view.View.TheVariants as views;

use crate::account_fields::{recent_records, status_records, worth_records};
use crate::lookup_fields::lookup_records;
use crate::lot_fields::lot_records;
use crate::texts::{push_amount, push_number, push_text};
use crate::volume_fields::volume_records;
use brk_money::{Fault, Wide};
use brk_trade_plans::Estimate;
use brk_view_rows::view::{SubmittedTrade, View};
use std::alloc::{AllocError, Global};

fn submitted_texts(alloc: Global, trade: &SubmittedTrade) -> Result<Vec<String>, AllocError>
    ensures { IfOk result (λ texts. texts_of_record texts ≡ submitted_trade_record trade.now) }
{
    let mut texts = Vec::new(alloc);
    push_number(alloc, &mut texts, trade.id.get())?;
    push_text(alloc, &mut texts, trade.kind.code())?;
    push_text(alloc, &mut texts, trade.symbol.as_str())?;
    push_number(alloc, &mut texts, u64::from(trade.qty.get()))?;
    push_amount(alloc, &mut texts, Wide::from(trade.bid))?;
    Ok(texts)
}

fn submitted_records(
    alloc: Global,
    trades: &[SubmittedTrade],
) -> Result<Vec<Vec<String>>, AllocError>
    ensures { IfOk result (λ records. texts_of_records records ≡ map submitted_trade_record trades.now) }
{
    let mut records = Vec::new(alloc);
    for trade in trades {
        let texts = submitted_texts(alloc, trade)?;
        records.push(texts)?;
    }
    Ok(records)
}

fn estimate_texts(alloc: Global, estimate: &Estimate) -> Result<Vec<String>, AllocError>
    ensures { IfOk result (λ texts. texts_of_record texts ≡ estimate_record estimate.now) }
{
    let mut texts = Vec::new(alloc);
    push_amount(alloc, &mut texts, Wide::from(estimate.price))?;
    push_amount(alloc, &mut texts, Wide::from(estimate.buy_value))?;
    push_amount(alloc, &mut texts, Wide::from(estimate.sell_value))?;
    push_amount(alloc, &mut texts, Wide::from(estimate.tax))?;
    push_amount(alloc, &mut texts, Wide::from(estimate.commission))?;
    push_amount(alloc, &mut texts, Wide::from(estimate.charge))?;
    push_amount(alloc, &mut texts, estimate.assets)?;
    Ok(texts)
}

fn estimate_records(alloc: Global, estimate: &Estimate) -> Result<Vec<Vec<String>>, AllocError>
    ensures { IfOk result (λ records. texts_of_records records ≡ estimate_record estimate.now ∷ []) }
{
    let texts = estimate_texts(alloc, estimate)?;
    let mut records = Vec::new(alloc);
    records.push(texts)?;
    Ok(records)
}

/// Returns the records of a view, in the order of the view, each a list of its fields as texts. The
/// views of recent activity, of a status, of looked-up trades and of lots mix records of several
/// kinds; `Lots(None)` has no record. Each amount is in its canonical form, such as `-12.05`. Fails
/// with `Memory` only.
pub fn view_fields(alloc: Global, view: &View) -> Result<Vec<Vec<String>>, Fault>
    ensures records { IfOk result (λ records. texts_of_records records ≡ records_of_view view.now) }
    // If the estimate is one of the model, its record equals that of the model.
    ensures estimate { IfOk result (λ records. (e : model.Estimate) → view.now ≡ views.Estimate (estimate_from_model e)
        → texts_of_records records ≡ estimate_fields e ∷ []) }
    ensures fault { OnErr result (result ≡ Err Memory) }
{
    let records = match view {
        View::Position(accounts) => worth_records(alloc, accounts),
        View::Recent(recent) => recent_records(alloc, recent),
        View::Status(account) => status_records(alloc, account),
        View::Lookup(trades) => lookup_records(alloc, trades),
        View::Lots(lots) => lot_records(alloc, lots),
        View::Volume(brokers) => volume_records(alloc, brokers),
        View::Submitted(trades) => submitted_records(alloc, trades),
        View::Estimate(estimate) => estimate_records(alloc, estimate),
    };
    Ok(records?)
}
