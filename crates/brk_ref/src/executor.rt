use crate::name::Name;
use crate::tax_id::TaxId;

/// The person who places an order.
#[derive(Drop)]
pub struct Executor {
    pub first_name: Name,
    pub last_name: Name,
    pub tax_id: TaxId,
}
