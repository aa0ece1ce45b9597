//! The records of the brokers' volumes.

ghost use Rattle.std.specs.Prelude.{◌≡◌, IfOk, map};
ghost use Rattle.brk_view_rows.specs.Views.{texts_of_record, texts_of_records};
ghost use Rattle.brk_view_rows.specs.Volume.{broker_volume_record};

use crate::texts::{push_amount, push_number, push_text};
use brk_view_rows::volumes::BrokerVolume;
use std::alloc::{AllocError, Global};

fn volume_texts(alloc: Global, broker: &BrokerVolume) -> Result<Vec<String>, AllocError>
    ensures { IfOk result (λ texts. texts_of_record texts ≡ broker_volume_record broker.now) }
{
    let mut texts = Vec::new(alloc);
    push_text(alloc, &mut texts, broker.name.as_str())?;
    push_number(alloc, &mut texts, broker.broker.get())?;
    push_amount(alloc, &mut texts, broker.volume)?;
    Ok(texts)
}

pub(crate) fn volume_records(
    alloc: Global,
    brokers: &[BrokerVolume],
) -> Result<Vec<Vec<String>>, AllocError>
    ensures { IfOk result (λ records. texts_of_records records ≡ map broker_volume_record brokers.now) }
{
    let mut records = Vec::new(alloc);
    for broker in brokers {
        let texts = volume_texts(alloc, broker)?;
        records.push(texts)?;
    }
    Ok(records)
}
