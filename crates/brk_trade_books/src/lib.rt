//! Theorems about the books: the effect of each command on the tables of a base, the lookups in
//! these tables, and what holds after any run of calls. They mention no plan. Proof-only: there is
//! no code to call.
#![tactic(auto)]

pub mod books;
pub mod changes;
pub mod reads;
pub mod whole_runs;
