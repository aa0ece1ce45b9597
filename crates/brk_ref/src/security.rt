use crate::exchange::Exchange;
use crate::name::Name;
use crate::symbol::Symbol;

/// A security (a row of SECURITY).
#[derive(Clone, Drop)]
pub struct Security {
    pub symbol: Symbol,
    pub name: Name,
    pub exchange: Exchange,
    pub sector: Name,
}
