//! The desk executes commands, with or without keys, and answers queries: one call, or a list of
//! calls in order. A command is executed in one transaction: the decision on it and, if it is
//! accepted, its commit. Under each key a command is accepted at most once.
#![tactic(auto)]

mod asking;
pub mod beginning;
pub mod booking;
pub mod call;
mod deciding;
pub mod desk;
mod formats;
mod keeping;
pub mod reopening;
pub mod runs;
mod viewing;

pub use booking::Answer;
pub use brk_desk_commands::{Command, line_text, parse_row, row_text};
pub use brk_desk_queries::Head;
pub use brk_money::{Fault, Planned, Refusal, Stamp};
pub use brk_ref::Key;
pub use brk_store;
pub use brk_store::{Visitor, WalkError};
pub use brk_view::view_fields;
pub use brk_view_rows::{Query, View, parse_query};
pub use call::{Call, Outcome};
pub use desk::Desk;
