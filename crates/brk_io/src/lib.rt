//! The environment of an engine, which executes the rows of a batch or of a stream: clocks, among
//! them the clock of the program, writing all bytes, and the reasons why a batch, a stream or a
//! report ended early, or why arguments request no job.
#![tactic(auto)]

mod batch_fault;
mod clock;
pub mod program_clock;
pub mod report_fault;
pub mod stream_fault;
pub mod usage_fault;
pub mod writing;

pub use batch_fault::{BatchFault, FaultKind};
pub use clock::Clock;
pub use program_clock::{ProgramClock, stamp_of_system_time};
pub use report_fault::{LinesFault, ReportFault};
pub use stream_fault::ServeFault;
pub use usage_fault::UsageFault;
pub use writing::{NotWritten, write_all_bytes};
