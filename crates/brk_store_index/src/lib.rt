//! An index of rows in memory: for each group of rows that is read, such as the trades of an account,
//! the ages of its rows, the oldest first. An age is a stamp with an id. It also has the last price of
//! each security, and the terms of orders.
#![tactic(auto)]

pub mod age;
pub mod ages;
mod by_key;
mod by_number;
mod by_position;
pub mod group;
pub mod index;
pub mod lost;
mod lots;
mod prices;
mod ranked;
pub mod store_index;
pub mod terms;
mod trades;

pub use age::RowAge;
pub use group::Group;
pub use index::RowIndex;
pub use lost::IndexLost;
pub use prices::add_market_value;
pub use store_index::StoreIndex;
pub use terms::Terms;
