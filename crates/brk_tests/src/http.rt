//! Tests of streams of HTTP requests on a desk in memory, byte for byte.

pub mod cuts;
pub mod peers;
pub mod streams;
