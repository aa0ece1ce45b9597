//! Rows that are read one after another by their ages, which an index has.

ghost use Rattle.std.specs.Prelude.{◌≡◌, ◌+◌, ◌<◌, ◌^◌, drop, false, length, option_to_list, take};
ghost use Rattle.std.specs.Option.{option_copied};
ghost use Rattle.brk_store_index.specs.Ages.{ages_in, in_order};
ghost use Rattle.brk_store_index.specs.declared.age.RowAge.{RowAge as Age};
ghost use Rattle.brk_model.specs.Tables.{Tables};
ghost use Rattle.brk_store_transactions.specs.Holds.{ReadPost};
ghost use Rattle.brk_store_reads.specs.RowsByAge.{AreRowsOfAges};

use crate::chosen_ages::{all_ages, choose_ages};
use brk_money::{CallFault, Stamp, StoreFailed};
use brk_store_index::RowAge;
use brk_store_transactions::begin_transaction;
use sqlite::{Alter, Connection};
use std::alloc::Global;
use std::collections::VecDeque;

/// Rows of one kind, each of which is read by its age.
pub trait RowsByAge<S: Alter, R> {
    /// Relates an age to the row that has it in the tables.
    ghost found: { Self → Age → R → Tables → Type 0 };

    /// Fails also if no such row has the age.
    fn row_of_age(&self, conn: &mut Connection<S>, age: &RowAge) -> Result<R, StoreFailed>
        requires { conn.old.in_transaction ≡ false }
        ensures mode { conn.new.in_transaction ≡ false }
        ensures read { ReadPost S.Store conn.old conn.new result (λ row t. found self.now age.now row t) };
}

#[tactic(auto, using(brk_store_transactions::proofs::Ending::read_is_over))]
fn read_last_stamp<S: Alter>(conn: &mut Connection<S>) -> Result<Option<Stamp>, StoreFailed>
    requires { conn.old.in_transaction ≡ false }
    ensures mode { conn.new.in_transaction ≡ false }
    ensures read { ReadPost S.Store conn.old conn.new result (λ last t. last ≡ t.last) }
{
    let mut tx = begin_transaction(conn);
    brk_tables_schema::last_stamp(&mut tx)
}

// There is an age, so the call fails if the database is not open.
fn read_row_of_each_age<S: Alter, R: Drop, K: RowsByAge<S, R>>(
    conn: &mut Connection<S>,
    alloc: Global,
    kind: &K,
    ages: &[RowAge],
) -> Result<Vec<R>, CallFault>
    requires mode { conn.old.in_transaction ≡ false }
    requires some { 0 < length ages.now }
    ensures mode { conn.new.in_transaction ≡ false }
    ensures read { ReadPost S.Store conn.old conn.new result (λ rows t. AreRowsOfAges (λ age row. K.found kind.now age row t) ages.now rows.items) }
{
    let mut found = Vec::new(alloc);
    for age in ages {
        let row = kind.row_of_age(conn, age)?;
        found.push(row)?;
    }
    Ok(found)
}

/// Returns the rows of the ages, in their order.
pub fn read_rows_of_ages<S: Alter, R: Drop, K: RowsByAge<S, R>>(
    conn: &mut Connection<S>,
    alloc: Global,
    kind: &K,
    ages: &[RowAge],
) -> Result<Vec<R>, CallFault>
    requires { conn.old.in_transaction ≡ false }
    ensures mode { conn.new.in_transaction ≡ false }
    ensures read { ReadPost S.Store conn.old conn.new result (λ rows t. AreRowsOfAges (λ age row. K.found kind.now age row t) ages.now rows.items) }
{
    if ages.is_empty() {
        // Called because it fails if the database is not open.
        let _last = read_last_stamp(conn)?;
        return Ok(Vec::new(alloc));
    }
    read_row_of_each_age(conn, alloc, kind, ages)
}

/// Returns the rows of at most `most` ages after the first `skipped`, the newest first if
/// `newest_first`, otherwise the oldest first.
pub fn read_chosen_rows<S: Alter, R: Drop, K: RowsByAge<S, R>>(
    conn: &mut Connection<S>,
    alloc: Global,
    kind: &K,
    ages: Option<&VecDeque<RowAge>>,
    newest_first: bool,
    skipped: usize,
    most: usize,
) -> Result<Vec<R>, CallFault>
    requires mode { conn.old.in_transaction ≡ false }
    requires few { skipped + most < 2 ^ 64 }
    ensures mode { conn.new.in_transaction ≡ false }
    ensures read { ReadPost S.Store conn.old conn.new result (λ rows t. AreRowsOfAges (λ age row. K.found kind.now age row t)
        (take most (drop skipped (in_order newest_first (ages_in (option_copied ages.entry))))) rows.items) }
{
    let chosen = choose_ages(alloc, ages, newest_first, skipped, most)?;
    read_rows_of_ages(conn, alloc, kind, &chosen)
}

/// Returns the rows of all ages.
pub fn read_all_rows<S: Alter, R: Drop, K: RowsByAge<S, R>>(
    conn: &mut Connection<S>,
    alloc: Global,
    kind: &K,
    ages: Option<&VecDeque<RowAge>>,
) -> Result<Vec<R>, CallFault>
    requires { conn.old.in_transaction ≡ false }
    ensures mode { conn.new.in_transaction ≡ false }
    ensures read { ReadPost S.Store conn.old conn.new result (λ rows t. AreRowsOfAges (λ age row. K.found kind.now age row t) (ages_in (option_copied ages.entry)) rows.items) }
{
    let all = all_ages(alloc, ages)?;
    read_rows_of_ages(conn, alloc, kind, &all)
}

/// Returns the row of the age, if there is one.
pub fn read_optional_row<S: Alter, R: Drop, K: RowsByAge<S, R>>(
    conn: &mut Connection<S>,
    kind: &K,
    age: Option<RowAge>,
) -> Result<Option<R>, StoreFailed>
    requires { conn.old.in_transaction ≡ false }
    ensures mode { conn.new.in_transaction ≡ false }
    ensures read { ReadPost S.Store conn.old conn.new result (λ row t. AreRowsOfAges (λ age row. K.found kind.now age row t) (option_to_list age) (option_to_list row)) }
{
    if let Some(age) = age {
        let row = kind.row_of_age(conn, &age)?;
        return Ok(Some(row));
    }
    // Called because it fails if the database is not open.
    let _last = read_last_stamp(conn)?;
    Ok(None)
}
