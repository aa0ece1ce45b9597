//! Standard output that is the file of the job's desk, or its log.

use crate::examining::log_path;
use crate::jobs::path_of_job;
use brk_cli_args::Job;
use std::fs;
use std::os::unix::fs::MetadataExt;

// Standard output, as Linux names it.
const OUTPUT: &str = "/proc/self/fd/1";

// The device and the number of the file at `path`.
fn node_of(rt: &HostRuntime, path: &str) -> Option<(u64, u64)> {
    let found = fs::metadata(rt, path).ok()?;
    Some((found.dev(), found.ino()))
}

fn is_output_at(rt: &HostRuntime, path: &str) -> bool {
    let output = node_of(rt, OUTPUT);
    if output.is_none() {
        return false;
    }
    let log = match log_path(rt, path) {
        Ok(log) => node_of(rt, log.as_str()),
        Err(_) => None,
    };
    output == node_of(rt, path) || output == log
}

/// Returns whether standard output is the file of the job's desk, or its log: what the job prints
/// would be written over the desk. Returns false if the system does not tell.
pub fn prints_over_desk(rt: &HostRuntime, job: &Job) -> bool {
    match path_of_job(job) {
        Some(path) => is_output_at(rt, path),
        None => false,
    }
}
