//! Some of the ages of a group of rows, by their places from an end, and the places of a span.

ghost use Rattle.std.specs.Prelude.{◌≡◌, ◌+◌, ◌<◌, ◌^◌, IfOk, drop, false, take, true};
ghost use Rattle.std.specs.Option.{option_copied};
ghost use Rattle.brk_store_index.specs.Ages.{IsPlaceOfStamp, ages_in, in_order};
ghost use Rattle.brk_store_reads.specs.RowsByAge.{IsFirstAgeSince};

use brk_money::Stamp;
use brk_store_index::RowAge;
use brk_store_index::ages::{age_in_order, place_of_stamp};
use std::alloc::{AllocError, Global};
use std::collections::VecDeque;

fn ages_from_end(
    alloc: Global,
    ages: &VecDeque<RowAge>,
    newest_first: bool,
    skipped: usize,
    most: usize,
) -> Result<Vec<RowAge>, AllocError>
    requires { skipped + most < 2 ^ 64 }
    ensures { IfOk result (λ chosen. chosen.items ≡ take most (drop skipped (in_order newest_first ages.now.items))) }
{
    let mut chosen = Vec::new(alloc);
    for place in 0..most {
        let Some(age) = age_in_order(ages, newest_first, skipped + place) else {
            return Ok(chosen);
        };
        chosen.push(age)?;
    }
    Ok(chosen)
}

/// Returns at most `most` ages after the first `skipped`, the newest first if `newest_first`,
/// otherwise the oldest first.
pub(crate) fn choose_ages(
    alloc: Global,
    ages: Option<&VecDeque<RowAge>>,
    newest_first: bool,
    skipped: usize,
    most: usize,
) -> Result<Vec<RowAge>, AllocError>
    requires { skipped + most < 2 ^ 64 }
    ensures { IfOk result (λ chosen. chosen.items ≡ take most (drop skipped (in_order newest_first (ages_in (option_copied ages.entry))))) }
{
    match ages {
        Some(ages) => ages_from_end(alloc, ages, newest_first, skipped, most),
        None => Ok(Vec::new(alloc)),
    }
}

pub(crate) fn all_ages(
    alloc: Global,
    ages: Option<&VecDeque<RowAge>>,
) -> Result<Vec<RowAge>, AllocError>
    ensures { IfOk result (λ all. all.items ≡ ages_in (option_copied ages.entry)) }
{
    match ages {
        Some(ages) => ages_from_end(alloc, ages, false, 0, ages.len()),
        None => Ok(Vec::new(alloc)),
    }
}

// The places of the first age of the span and of the first after it.
pub(crate) fn places_of_span(
    ages: Option<&VecDeque<RowAge>>,
    first: Stamp,
    last: Stamp,
) -> (usize, usize)
    ensures first { IsPlaceOfStamp (ages_in (option_copied ages.entry)) first false result.0 }
    ensures last { IsPlaceOfStamp (ages_in (option_copied ages.entry)) last true result.1 }
{
    match ages {
        Some(ages) => (
            place_of_stamp(ages, first, false),
            place_of_stamp(ages, last, true),
        ),
        None => (0, 0),
    }
}

/// Returns the age of the oldest row whose stamp is at least `stamp`, of ages that rise, or `None` if
/// there is none.
pub fn first_age_since(ages: Option<&VecDeque<RowAge>>, stamp: Stamp) -> Option<RowAge>
    ensures { IsFirstAgeSince stamp (ages_in (option_copied ages.entry)) result }
{
    match ages {
        Some(ages) => age_in_order(ages, false, place_of_stamp(ages, stamp, false)),
        None => None,
    }
}
