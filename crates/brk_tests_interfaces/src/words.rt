//! The jobs that command lines ask for, as text.

use brk_cli_args::{Job, UsageFault, read_words};
use brk_money::{Id, Stamp};
use std::alloc::{AllocError, Global};

// Returns the path of a file, or `-` if there is none.
fn path_or_hyphen(db: &Option<String>) -> &str {
    db.as_deref().unwrap_or("-")
}

// Returns a timestamp in milliseconds since 1970-01-01 UTC, or -1 if there is none.
fn millis_or_minus_one(at: Option<Stamp>) -> i64 {
    match at {
        Some(stamp) => stamp.get(),
        None => -1,
    }
}

// Returns the number of an id, or 0 if there is none.
fn number_or_zero(id: Option<Id>) -> u64 {
    match id {
        Some(id) => id.get(),
        None => 0,
    }
}

// Appends a space and a word to the text, for each word, and returns the text.
fn append_words(mut text: String, words: &[String]) -> Result<String, AllocError> {
    for word in words {
        text.push_str(" ")?;
        text.push_str(word.as_str())?;
    }
    Ok(text)
}

// Returns the name of a job and its values, in the order of its fields, as text, separated by
// spaces: a path, or `-` if it is optional and there is none; timestamps in milliseconds since
// 1970-01-01 UTC, or -1 if there is none; days as numbers of days since 1970-01-01; a customer by
// its id, or 0 if there is none; flags as `true` or `false`; other numbers and words as they are.
fn format_job(alloc: Global, job: &Job) -> Result<String, AllocError> {
    match job {
        Job::Batch { db, existing, at } => format!(in alloc;
            "batch {} {existing} {}",
            path_or_hyphen(db),
            millis_or_minus_one(*at)
        ),
        Job::Statement {
            db,
            account,
            from,
            to,
        } => {
            let (account, from, to) = (account.get(), from.get(), to.get());
            format!(in alloc; "statement {db} {account} {from} {to}")
        }
        Job::Statements {
            db,
            from,
            to,
            customer,
        } => {
            let (from, to, customer) = (from.get(), to.get(), number_or_zero(*customer));
            format!(in alloc; "statements {db} {from} {to} {customer}")
        }
        Job::Ask {
            db,
            json,
            heads,
            view,
            arguments,
        } => {
            let text = format!(in alloc; "ask {db} {json} {heads} {view}")?;
            append_words(text, arguments)
        }
        Job::Explain { db, words } => append_words(format!(in alloc; "explain {db}")?, words),
        Job::Audit { db } => format!(in alloc; "audit {db}"),
        Job::Serve {
            port,
            db,
            existing,
            at,
            streams,
        } => {
            format!(in alloc;
                "serve {port} {} {existing} {} {streams}",
                path_or_hyphen(db),
                millis_or_minus_one(*at)
            )
        }
    }
}

// Returns the words of a command line, which are separated by `|`: the name of the program and its
// arguments.
fn words_of_command_line(alloc: Global, line: &str) -> Result<Vec<String>, AllocError> {
    let mut all = Vec::new(alloc);
    for word in line.split('|') {
        all.push(String::from_str(alloc, word)?)?;
    }
    Ok(all)
}

// Returns the text of a parsed job, or `wrong:` with the error text, `help:` with the help or
// version text, `day` for a malformed day, or `memory` if memory ran out.
fn format_parsed_job(alloc: Global, read: &Result<Job, UsageFault>) -> Result<String, AllocError> {
    match read {
        Ok(job) => format_job(alloc, job),
        Err(UsageFault::Words(text)) => format!(in alloc; "wrong: {text}"),
        Err(UsageFault::Help(text)) => format!(in alloc; "help: {text}"),
        Err(UsageFault::Day) => String::from_str(alloc, "day"),
        Err(UsageFault::Memory) => String::from_str(alloc, "memory"),
    }
}

/// Returns the text of the job that a command line asks for, whose words are separated by `|`, or of
/// the fault (`format_parsed_job`).
pub fn shown_job(alloc: Global, line: &str) -> Result<String, AllocError> {
    format_parsed_job(alloc, &read_words(words_of_command_line(alloc, line)?))
}
