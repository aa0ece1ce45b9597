//! The frames of a log, from 0, each with a page.

ghost use Rattle.std.specs.Prelude.{◌≡◌, ◌≢◌, ℕ, ◌+◌, ◌-◌, ◌/◌, ◌<◌, ◌≤◌, ◌↔◌, length, slice_index, IsTrue};
ghost use Rattle.sqlite_wal.specs.Format.{IsFrame};
ghost use Rattle.sqlite_wal.specs.Recovery.{Passes, frame, frame_at, sum_before};
ghost use Rattle.brk_cli_log.specs.Damage.{BeginsCounted, Commits, IsShut};

use crate::bytes::{Sum, read_number, read_sum};
use crate::header::header;
use sqlite_wal::checksum_of;

/// The number of the page of a frame that counts what its commit has.
const COUNT_PAGE: u32 = 0xff00_0000;

/// Returns how many frames the log has whole.
#[tactic(auto, unfolding(sqlite_wal::specs::Recovery::frames_len))]
pub(crate) fn count_frames(log: &[u8], page_size: usize) -> usize
    requires header { 32 ≤ length log.now }
    requires size { page_size < 4294967296 }
    ensures within { (i : ℕ) → i < result → frame_at page_size i + (24 + page_size) ≤ length log.now }
    ensures all { (i : ℕ) → frame_at page_size i + (24 + page_size) ≤ length log.now → i < result }
{
    (log.len() - 32) / (24 + page_size)
}

#[tactic(auto, unfolding(sqlite_wal::specs::Format::part, sqlite_wal::specs::Recovery::frames_len))]
fn frame(log: &[u8], page_size: usize, i: usize) -> &[u8]
    requires { frame_at page_size i + (24 + page_size) ≤ length log.now }
    ensures bytes { result.now ≡ frame page_size log.now i }
    ensures len { length result.now ≡ 24 + page_size }
{
    let at = 32 + i * (24 + page_size);
    &log[at..at + 24 + page_size]
}

// Returns the sum from which the sum of the frame `i` goes on.
fn sum_before(log: &[u8], page_size: usize, i: usize) -> Sum
    requires header { 32 ≤ length log.now }
    requires within { frame_at page_size i + (24 + page_size) ≤ length log.now }
    ensures { result ≡ sum_before page_size log.now i }
{
    if i == 0 {
        read_sum(header(log), 24)
    } else {
        read_sum(frame(log, page_size, i - 1), 16)
    }
}

fn is_frame(head: &[u8], before: Sum, frame: &[u8]) -> bool
    requires head { 32 ≤ length head.now }
    requires frame { 24 ≤ length frame.now }
    ensures { IsTrue result ↔ IsFrame head.now before frame.now }
{
    if frame[8..16] != head[16..24] || read_number(frame, 0) == 0 {
        return false;
    }
    let is_big = head[3] == 0x83;
    let front = checksum_of(is_big, before, &frame[..8]);
    checksum_of(is_big, front, &frame[24..]) == read_sum(frame, 16)
}

/// The frame `i` has the salts of the header, and its sum goes on from the frame before.
pub(crate) fn passes(log: &[u8], page_size: usize, i: usize) -> bool
    requires header { 32 ≤ length log.now }
    requires within { frame_at page_size i + (24 + page_size) ≤ length log.now }
    ensures { IsTrue result ↔ Passes page_size log.now i }
{
    let before = sum_before(log, page_size, i);
    is_frame(header(log), before, frame(log, page_size, i))
}

pub(crate) fn commits(log: &[u8], page_size: usize, i: usize) -> bool
    requires { frame_at page_size i + (24 + page_size) ≤ length log.now }
    ensures { IsTrue result ↔ Commits page_size log.now i }
{
    read_number(frame(log, page_size, i), 4) != 0
}

pub(crate) fn begins_counted(log: &[u8], page_size: usize, i: usize) -> bool
    requires { frame_at page_size i + (24 + page_size) ≤ length log.now }
    ensures { IsTrue result ↔ BeginsCounted page_size log.now i }
{
    read_number(frame(log, page_size, i), 0) == COUNT_PAGE
}

#[tactic(auto, unfolding(sqlite_wal::specs::Recovery::frames_len))]
pub(crate) fn is_shut(log: &[u8], page_size: usize, i: usize) -> bool
    requires header { 32 ≤ length log.now }
    requires within { frame_at page_size i + (24 + page_size) ≤ length log.now }
    ensures { IsTrue result ↔ IsShut page_size log.now i }
{
    let shut = if log[16] == 0 { 1 } else { 0 };
    log[32 + i * (24 + page_size) + 8] == shut
}
