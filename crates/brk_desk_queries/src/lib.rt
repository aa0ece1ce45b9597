//! The answers to queries, read from a store: views of typed rows, or refusals. An answer is the
//! model's if the tables equal those of a base that satisfies the books invariant and the audit
//! invariant. The estimate of an order is in brk_desk_decisions; the head of a statement is here, and
//! the accounts of several statements.
#![tactic(auto)]

pub mod accounts;
pub mod chosen_accounts;
pub mod lookups;
pub mod orders;
mod parties;
pub mod recents;
pub mod statement_head;
pub mod statuses;
pub mod touched_lots;
pub mod volumes;

pub use accounts::{customer_by_tax_id_view, customer_view};
pub use chosen_accounts::statement_accounts;
pub use lookups::{account_trades_view, symbol_trades_view, trades_view};
pub use orders::submitted_view;
pub use recents::recent_view;
pub use statement_head::{Head, account_head};
pub use statuses::status_view;
pub use touched_lots::touched_lots_view;
pub use volumes::volume_view;
