//! The log beside a file, written once more before the database reads it. After a sync that failed,
//! its pages may be in the memory of the system alone.

ghost use Rattle.std.specs.Prelude.{◌≡◌, IfOk, IsTrue, OnOk};
ghost use Rattle.sqlite_disk.specs.Disk.{Only};

use crate::examining::log_path;
use brk_cli_log::EMPTIED_LEN;
use sqlite_disk::{Disk, Unknown};
use std::alloc::Global;
use std::io::ErrorKind;
use std::{fs, io};

fn read_whole<D: Disk>(alloc: Global, file: &mut D) -> io::Result<Vec<u8>>
    requires { IsTrue (D.Disk.is_usable file.old) }
    ensures read { IfOk result (λ bytes. IsTrue (D.Disk.is_clean file.new) → bytes.items ≡ D.Disk.seen file.old) }
    ensures same { D.Disk.seen file.new ≡ D.Disk.seen file.old }
    ensures usable { OnOk result (IsTrue (D.Disk.is_usable file.new)) }
{
    let len = file.len()?;
    let mut bytes = vec![in alloc; 0; len]?;
    file.read_at(0, &mut bytes)?;
    Ok(bytes)
}

// Writes the bytes of a file over themselves, and syncs it: a crash leaves what a read returned.
#[tactic(auto, using(crate::proofs::Overwritten::written_over))]
fn write_again<D: Disk>(alloc: Global, file: &mut D) -> io::Result<()>
    requires { IsTrue (D.Disk.is_usable file.old) }
    ensures same { OnOk result (IsTrue (D.Disk.is_clean file.new) → D.Disk.seen file.new ≡ D.Disk.seen file.old) }
    ensures durable { OnOk result (IsTrue (D.Disk.is_clean file.new) → Only (D.Disk.seen file.old) (D.Disk.may_leave file.new)) }
{
    let bytes = read_whole(alloc, file)?;
    file.write_at(0, &bytes)?;
    file.sync()
}

// Returns whether the log beside the file at `path` may have a frame.
fn may_have_frame(rt: &HostRuntime, path: &str) -> io::Result<bool> {
    match fs::symlink_metadata(rt, log_path(rt, path)?.as_str()) {
        Ok(found) => Ok(found.len() > EMPTIED_LEN as u64),
        Err(error) if error.kind() == ErrorKind::NotFound => Ok(false),
        Err(error) => Err(error),
    }
}

/// Writes the log beside the file at `path` once more, and syncs it, unless it is missing or was
/// copied into the file. No other program can have the file open meanwhile.
pub(crate) fn write_log_again(rt: &HostRuntime, path: &str) -> io::Result<()> {
    if !may_have_frame(rt, path)? {
        return Ok(());
    }
    let Ok(mut files) = sqlite_std_file::open(rt, path, Unknown) else {
        return Err(ErrorKind::Other.into());
    };
    write_again(rt.alloc(), &mut files.log)
}
