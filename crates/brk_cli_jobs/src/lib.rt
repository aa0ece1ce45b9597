//! The jobs of the program, over a desk in memory or in a file.
#![tactic(auto)]

mod ask;
mod audit;
mod batch;
mod desk;
pub mod desk_files;
mod examining;
mod explain;
pub mod file;
pub mod file_place;
pub mod jobs;
mod log_rights;
mod log_writing;
pub mod machine;
mod output_file;
pub mod pipe;
mod reopening;
mod serve;
mod statement;
mod statements;
mod words;

pub use desk_files::{DeskFiles, MachineFiles, PlaceFiles};
pub use file_place::{FilePlace, MachinePlace};
pub use jobs::{execute_job, execute_requested_job};
pub use machine::execute_requested_job_on_machine;
pub use output_file::prints_over_desk;
pub use pipe::PipeWriter;
pub use serve::{serve_file_on, serve_on};
