//! Theorems about audits and adopted files: rows that pass every condition are the tables of a base
//! that satisfies the books invariant. If a base satisfies this invariant and has valid histories,
//! and its tables satisfy the condition `Form` of schema 3, they pass every condition of schema 3.
//! These two are the audit invariant, which every accepted well-formed command preserves.
//! Proof-only: there is no code to call.
#![tactic(auto)]

pub mod adoption;
pub mod audit_invariant;
pub mod upgrade;
