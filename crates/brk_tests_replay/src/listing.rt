//! The transcripts of a folder.

use std::alloc::{AllocError, Global};
use std::fs::DirEntry;
use std::{fs, io};

// Appends the path of a file of a folder if its name ends with `.txt`.
fn append_transcript_path(
    alloc: Global,
    paths: &mut Vec<String>,
    entry: &DirEntry,
) -> Result<(), AllocError> {
    let path = entry.path().to_string_lossy();
    if path.ends_with(".txt") {
        let path = path.strip_prefix("./").unwrap_or(path);
        paths.push(String::from_str(alloc, path)?)?;
    }
    Ok(())
}

/// Returns the paths of the transcripts in the folder `folder`, sorted by their bytes: of the files
/// whose names end with `.txt`. The path of a file in the folder `.` is its name alone. Fails if
/// the folder cannot be read or memory runs out.
pub fn list_transcripts(rt: &HostRuntime, folder: &str) -> io::Result<Vec<String>> {
    let mut paths = Vec::new(rt.alloc());
    for entry in fs::read_dir(rt, folder)? {
        append_transcript_path(rt.alloc(), &mut paths, &entry?)?;
    }
    paths.sort()?;
    Ok(paths)
}
