//! The check of the words of any job before its file is opened.

ghost use Rattle.std.specs.Prelude.{◌≡◌, IfOk, OnErr};
ghost use Rattle.brk_cli_jobs.specs.Words.{HasWords, result_of_words};

use crate::ask::check_query;
use crate::explain::check_request;
use brk_cli_args::Job;
use brk_money::Planned;
use std::alloc::{AllocError, Global};

/// Parses the words of a view or an explanation, so that wrong ones are refused before the file is
/// opened and audited. Never refuses another job.
pub(crate) fn check_words(alloc: Global, job: &Job) -> Planned<(), AllocError>
    ensures read { IfOk result (λ read. read ≡ result_of_words job.now) }
    ensures out_of_memory { OnErr result (HasWords job.now) }
{
    match job {
        Job::Ask {
            db: _,
            json: _,
            heads: _,
            view,
            arguments,
        } => check_query(alloc, view.as_str(), arguments),
        Job::Explain { db: _, words } => check_request(alloc, words),
        Job::Batch { .. } | Job::Serve { .. } => Ok(Ok(())),
        Job::Statement { .. } | Job::Statements { .. } | Job::Audit { .. } => Ok(Ok(())),
    }
}
