//! The records of the lots that a trade touched.

ghost use Rattle.std.specs.Prelude.{◌≡◌, ◌++◌, ◌∷◌, [], IfOk, OnOk, decimal, map};
ghost use Rattle.brk_view_rows.specs.Lots.{lot_change_record, touched_lot_records};
ghost use Rattle.brk_view_rows.specs.Views.{texts_of_record, texts_of_records};

use crate::texts::{push_number, push_shares};
use brk_view_rows::touched_lots::{LotTouch, TouchedLots};
use std::alloc::{AllocError, Global};

fn touch_texts(alloc: Global, touch: LotTouch) -> Result<Vec<String>, AllocError>
    ensures { IfOk result (λ texts. texts_of_record texts ≡ lot_change_record touch) }
{
    let change = touch.change;
    let mut texts = Vec::new(alloc);
    push_number(alloc, &mut texts, change.lot.get())?;
    push_number(alloc, &mut texts, change.trade.get())?;
    push_shares(alloc, &mut texts, change.before)?;
    push_shares(alloc, &mut texts, change.after)?;
    Ok(texts)
}

fn append_touch_records(
    alloc: Global,
    records: &mut Vec<Vec<String>>,
    touches: &[LotTouch],
) -> Result<(), AllocError>
    ensures { OnOk result (texts_of_records records.new ≡ texts_of_records records.old ++ map lot_change_record touches.now) }
{
    for touch in touches {
        let texts = touch_texts(alloc, *touch)?;
        records.push(texts)?;
    }
    Ok(())
}

// Returns the first record of the view: the id of the trade that touched the lots.
fn touching_trade_texts(alloc: Global, lots: &TouchedLots) -> Result<Vec<String>, AllocError>
    ensures { IfOk result (λ texts. texts_of_record texts ≡ decimal lots.now.trade ∷ []) }
{
    let mut texts = Vec::new(alloc);
    push_number(alloc, &mut texts, lots.trade.get())?;
    Ok(texts)
}

pub(crate) fn lot_records(
    alloc: Global,
    lots: &Option<TouchedLots>,
) -> Result<Vec<Vec<String>>, AllocError>
    ensures { IfOk result (λ records. texts_of_records records ≡ touched_lot_records lots.now) }
{
    let mut records = Vec::new(alloc);
    if let Some(lots) = lots {
        let found = touching_trade_texts(alloc, lots)?;
        records.push(found)?;
        append_touch_records(alloc, &mut records, &lots.changes)?;
    }
    Ok(records)
}
