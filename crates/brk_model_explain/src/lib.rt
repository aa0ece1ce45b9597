//! The model of explanations: the facts of the tables from which an explanation of a trade, an
//! account, a holding or a broker is computed, and its lines. It consists of definitions only;
//! there is no code to call.
#![tactic(auto)]
