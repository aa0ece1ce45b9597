//! Reads the next HTTP request at the front of a stream.
#![tactic(auto)]

mod buffer;
mod fields;
mod head;
mod input;
mod next;

pub use buffer::remove_front;
pub use fields::{FieldFacts, field_facts};
pub use head::{HeadFacts, parse_head};
pub use input::{InputFault, fill_buffer, length_of_head, read_head, read_to_length};
pub use next::{NextRequest, RequestPositions, read_request};
