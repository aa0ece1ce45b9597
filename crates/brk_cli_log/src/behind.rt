//! Commits behind the first frame that does not pass.

ghost use Rattle.std.specs.Prelude.{◌≡◌, ℕ, ◌+◌, ◌<◌, ◌≤◌, ◌↔◌, length, IsTrue};
ghost use Rattle.std.specs.Option.{ForSome};
ghost use Rattle.sqlite_wal.specs.Format.{IsSigned, be32};
ghost use Rattle.sqlite_wal.specs.Recovery.{Passes, frame_at, header};
ghost use Rattle.brk_cli_log.specs.Chains.{IsKind, IsSecondCommit, mark_after};
ghost use Rattle.brk_cli_log.specs.Damage.{HasCommitsBehind, HasLostCommit, IsFirstInvalid};

use crate::bytes::read_number;
use crate::frames::{begins_counted, commits, count_frames, is_shut, passes};

// Returns the first frame of the first `count` that does not pass, or `count`.
fn first_invalid(log: &[u8], page_size: usize, count: usize) -> usize
    requires header { 32 ≤ length log.now }
    requires within { (i : ℕ) → i < count → frame_at page_size i + (24 + page_size) ≤ length log.now }
    ensures few { result ≤ count }
    ensures before { (i : ℕ) → i < result → Passes page_size log.now i }
    ensures here { result < count → ¬ Passes page_size log.now result }
{
    for i in 0..count {
        if !passes(log, page_size, i) {
            return i;
        }
    }
    count
}

// What a frame is in the chain before it.
#[derive(Clone, Copy)]
enum FrameKind {
    /// It does not pass.
    Broken,
    /// It passes, and has no mark of a commit.
    Linked,
    /// It passes, and has the mark of a commit.
    Commit,
}

fn kind_of_frame(log: &[u8], page_size: usize, n: usize) -> FrameKind
    requires header { 32 ≤ length log.now }
    requires within { frame_at page_size n + (24 + page_size) ≤ length log.now }
    ensures { IsKind page_size log.now n result }
{
    if !passes(log, page_size, n) {
        return FrameKind::Broken;
    }
    if commits(log, page_size, n) {
        FrameKind::Commit
    } else {
        FrameKind::Linked
    }
}

fn mark_after(mark: Option<usize>, kind: FrameKind, n: usize) -> Option<usize>
    ensures { result ≡ mark_after mark kind n }
{
    match kind {
        FrameKind::Broken => None,
        FrameKind::Linked => mark,
        FrameKind::Commit => Some(n),
    }
}

fn is_second_commit(
    log: &[u8],
    page_size: usize,
    k: usize,
    mark: Option<usize>,
    kind: FrameKind,
) -> bool
    requires header { 32 ≤ length log.now }
    requires place { frame_at page_size k + (24 + page_size) ≤ length log.now }
    requires next { ForSome mark (λ i. frame_at page_size (i + 1) + (24 + page_size) ≤ length log.now) }
    requires small { ForSome mark (λ i. i + 1 < 18446744073709551616) }
    ensures { IsTrue result ↔ IsSecondCommit page_size log.now k mark kind }
{
    let FrameKind::Commit = kind else {
        return false;
    };
    match mark {
        Some(i) => !is_shut(log, page_size, k) || begins_counted(log, page_size, i + 1),
        None => false,
    }
}

// Returns whether two frames of one chain behind the frame `k`, of the first `count`, have the mark
// of a commit, and the first of them was synced before the other one was written.
fn has_commits_behind(log: &[u8], page_size: usize, count: usize, k: usize) -> bool
    requires header { 32 ≤ length log.now }
    requires within { (i : ℕ) → i < count → frame_at page_size i + (24 + page_size) ≤ length log.now }
    requires place { k < count }
    ensures { IsTrue result ↔ ((i : ℕ) × ((j : ℕ) × (j < count) × HasCommitsBehind page_size log.now k i j)) }
{
    let mut mark = None;
    for n in k + 1..count {
        let kind = kind_of_frame(log, page_size, n);
        if is_second_commit(log, page_size, k, mark, kind) {
            return true;
        }
        mark = mark_after(mark, kind, n);
    }
    false
}

/// The log has a commit that was synced, behind a frame that does not pass.
pub(crate) fn has_lost_commit(log: &[u8]) -> bool
    requires header { 32 ≤ length log.now }
    requires signed { IsSigned (header log.now) }
    ensures { IsTrue result ↔ HasLostCommit log.now }
{
    let page_size = read_number(log, 8) as usize;
    let count = count_frames(log, page_size);
    let k = first_invalid(log, page_size, count);
    k < count && has_commits_behind(log, page_size, count, k)
}
