//! The rights to the log beside a file. The log has what the file has, so its rights are no wider.

ghost use Rattle.std.specs.Prelude.{◌≡◌, bit_and, bit_or};

use crate::examining::log_path;
use std::fs::Permissions;
use std::io::ErrorKind;
use std::os::unix::fs::PermissionsExt;
use std::{fs, io};

// The log's mode without the rights that the file's mode does not have; its other bits stay.
fn mode_within(log: u32, file: u32) -> u32
    ensures { result ≡ bit_and log (bit_or file 0xffff_fe00) }
{
    log & (file | 0xffff_fe00)
}

// The mode of the file at `path`, none if it is missing.
fn mode_of(rt: &HostRuntime, path: &str) -> io::Result<Option<u32>> {
    match fs::metadata(rt, path) {
        Ok(found) => Ok(Some(found.permissions().mode())),
        Err(error) if error.kind() == ErrorKind::NotFound => Ok(None),
        Err(error) => Err(error),
    }
}

/// Takes from the log beside the file at `path` each right that the file does not give. Fails if it
/// may not change the log, as one of another owner.
pub(crate) fn restrict_log(rt: &HostRuntime, path: &str) -> io::Result<()> {
    let log = log_path(rt, path)?;
    let (Some(file_mode), Some(log_mode)) = (mode_of(rt, path)?, mode_of(rt, log.as_str())?) else {
        return Ok(());
    };
    let mode = mode_within(log_mode, file_mode);
    if mode == log_mode {
        Ok(())
    } else {
        fs::set_permissions(rt, log.as_str(), Permissions::from_mode(mode))
    }
}
