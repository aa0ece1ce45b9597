//! Theorems for a base that satisfies the books invariant: sorting its tables by key, as a store
//! reads them, changes no view, and explanations print the numbers of its tables. No code to call.
#![tactic(auto)]

pub mod balances;
pub mod brokers;
pub mod closings;
pub mod gains;
pub mod lookups;
pub mod replies;
pub mod settlements;
pub mod unchanged_figures;
pub mod views;
pub mod volumes;

pub use lookups::{
    lot_changes_read_by_lot_are_complete, rows_with_a_key_are_unique,
    sorting_tables_preserves_lookup_view, sorting_tables_preserves_lots_view,
    trades_read_by_ids_are_complete,
};
pub use views::{
    sorting_tables_preserves_account_value_view, sorting_tables_preserves_all_views,
    sorting_tables_preserves_recent_view, sorting_tables_preserves_status_view,
};
pub use volumes::{brokers_read_by_name_are_complete, sorting_tables_preserves_volume_view};
