//! Replays of transcripts: executes the commands of each transcript of a folder, and compares the
//! transcript with its replay, which has new output lines in place of the old ones. If the desk
//! answers as the transcript states, the two are equal.
#![tactic(auto)]

mod commands;
mod comparison;
mod files;
mod folders;
mod lines;
mod listing;
mod records;
mod replay;
mod table_list;
mod tests;

pub use folders::{ReplayFault, replay_all_folders};
pub use tests::TestCrates;
