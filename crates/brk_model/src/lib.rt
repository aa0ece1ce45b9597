//! The model of a brokerage: its commands, its abstract state, the values that follow from it, and
//! the replies. It consists of definitions only; there is no code to call.
#![tactic(auto)]
