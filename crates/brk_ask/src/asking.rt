//! One query: parsed from texts, executed on a desk, and its view formatted and written.

ghost use Rattle.std.specs.Prelude.{◌≡◌, IfOk, Ok};
ghost use Rattle.brk_ask.specs.Asked.{AsksQueryAndWritesView, PrintViewPost, WritesTextOrFails};
ghost use Rattle.brk_ask.specs.Printed.{printed_view_text};
ghost use Rattle.brk_model.specs.Ask as model;
ghost use Rattle.brk_ref.specs.Fields.{texts_of_fields};
ghost use Rattle.brk_view_rows.specs.Queries.{abstract_query};
ghost use Rattle.brk_view_rows.specs.Views.{records_of_view};

use crate::form::Form;
use crate::heads::header_records;
use crate::rows::{format_csv_rows, json_line};
use brk_desk::{Desk, Query, View, parse_query, view_fields};
use brk_io::write_all_bytes;
use brk_money::Fault;
use brk_report_lines::ReportFault;
use sqlite::Alter;
use std::alloc::{AllocError, Global};
use std::io::Write;

fn format_view(alloc: Global, query: &Query, view: &View, form: Form) -> Result<Vec<u8>, AllocError>
    ensures { IfOk result (λ text. text.items ≡ printed_view_text form (abstract_query query.now) (records_of_view view.now)) }
{
    let mut records = if form.heads {
        header_records(alloc, query)?
    } else {
        Vec::new(alloc)
    };
    let Ok(mut shown) = view_fields(alloc, view) else {
        return Err(AllocError);
    };
    records.append(&mut shown)?;
    if form.json {
        json_line(alloc, &records)
    } else {
        format_csv_rows(alloc, &records)
    }
}

// Formats the whole text first, so that nothing is written if memory runs out.
fn write_view<W: Write>(
    alloc: Global,
    query: &Query,
    view: &View,
    form: Form,
    writer: &mut W,
) -> Result<(), ReportFault>
    ensures { WritesTextOrFails (printed_view_text form (abstract_query query.now) (records_of_view view.now))
        (W.contents writer.old) (W.contents writer.new) result }
{
    match format_view(alloc, query, view, form) {
        Ok(text) => match write_all_bytes(writer, &text) {
            Ok(()) => Ok(()),
            Err(_) => Err(ReportFault::Write),
        },
        Err(_) => Err(ReportFault::Desk(Fault::Memory)),
    }
}

fn write_view_of_query<W: Write, S: Alter>(
    alloc: Global,
    desk: &mut Desk<S>,
    query: &Query,
    form: Form,
    writer: &mut W,
) -> Result<(), ReportFault>
    ensures { AsksQueryAndWritesView S.Store desk.old desk.new form (Ok (abstract_query query.now)) (W.contents writer.old) (W.contents writer.new) result }
{
    match desk.ask(alloc, query) {
        Ok(Ok(view)) => write_view(alloc, query, &view, form, writer),
        Ok(Err(refusal)) => Err(ReportFault::Refused(refusal)),
        Err(fault) => Err(ReportFault::Desk(fault)),
    }
}

/// Parses a query from the name of a view and its arguments, executes it on the desk, and writes
/// its view in the format `form`.
///
/// Fails with `Refused` and the refusal of the parser (20, 8, 9, 7 or 18, see `parse_query`) or of
/// the desk, or with `Desk(Memory)` or `Desk(Store)`, and nothing is then written. `Desk(Store)`
/// may also mean that a row that another row requires does not exist, or that a sum exceeds its
/// limit. Fails with `Write` after a prefix of the text, perhaps empty or all of it. The call
/// leaves an open database unchanged and adds nothing to what a crash may expose.
pub fn write_asked<W: Write, S: Alter>(
    alloc: Global,
    desk: &mut Desk<S>,
    view: &str,
    arguments: &[&[u8]],
    form: Form,
    writer: &mut W,
) -> Result<(), ReportFault>
    ensures asked { PrintViewPost S.Store desk.old desk.new form (model.parse_query view.now (texts_of_fields arguments.now))
        (W.contents writer.old) (W.contents writer.new) result }
{
    match parse_query(alloc, view, arguments) {
        Ok(Ok(query)) => write_view_of_query(alloc, desk, &query, form, writer),
        Ok(Err(refusal)) => Err(ReportFault::Refused(refusal)),
        Err(fault) => Err(ReportFault::Desk(fault)),
    }
}
