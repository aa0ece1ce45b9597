//! Statements of accounts, written line by line while the desk walks over its rows. After `Desk`
//! only whole lines are written, after `Write` also a prefix of the next.

mod parts;
pub mod sections;
pub mod several;
pub mod visitors;
pub mod writing;
