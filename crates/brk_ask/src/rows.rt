//! The records of a view, formatted as CSV rows or as a line of JSON.

ghost use Rattle.std.specs.Prelude.{◌≡◌, IfOk, map, string_bytes};
ghost use Rattle.brk_ask.specs.Printed.{json_line_text, csv_text};
ghost use Rattle.brk_view_rows.specs.Views.{texts_of_record};
ghost use Rattle.csv.specs.Writing.{default_writer, row_text};

use brk_http_engine::json_view;
use brk_ref::borrow_texts;
use csv::WriterBuilder;
use std::alloc::{AllocError, Global};

fn format_csv_row(alloc: Global, texts: &[String]) -> Result<Vec<u8>, AllocError>
    ensures { IfOk result (λ row. row.items ≡ row_text default_writer (map string_bytes texts.now)) }
{
    let fields = borrow_texts(alloc, texts)?;
    let mut writer = WriterBuilder::new().from_writer(Vec::new(alloc));
    match writer.write_fields(&fields) {
        Ok(()) => {}
        Err(_) => return Err(AllocError),
    }
    match writer.into_inner() {
        Ok(row) => Ok(row),
        Err(_) => Err(AllocError),
    }
}

/// Returns the records as rows of CSV, in order, each with its line feed.
pub fn format_csv_rows(alloc: Global, records: &[Vec<String>]) -> Result<Vec<u8>, AllocError>
    ensures { IfOk result (λ text. text.items ≡ csv_text (map texts_of_record records.now)) }
{
    let mut text = Vec::new(alloc);
    for record in records {
        let row = format_csv_row(alloc, record)?;
        text.extend_from_slice(&row)?;
    }
    Ok(text)
}

/// Returns the records as one line of JSON, `{"view":[["TEXT",..],..]}`, with its line feed.
pub fn json_line(alloc: Global, records: &[Vec<String>]) -> Result<Vec<u8>, AllocError>
    ensures { IfOk result (λ text. text.items ≡ json_line_text (map texts_of_record records.now)) }
{
    let told = json_view(alloc, records)?;
    let mut text = Vec::new(alloc);
    text.extend_from_slice(told.as_str().as_bytes())?;
    text.push(b'\n')?;
    Ok(text)
}
