ghost use Rattle.brk_model.specs.Parse.{read_customer_tax};
ghost use Rattle.brk_ref.specs.Records.{abstract_customer_tax};
ghost use Rattle.brk_ref.specs.Fields.{ParsesAs, texts_of_fields};

use crate::numbers::parse_id;
use brk_money::{Id, Refusal};

/// A tax that a customer pays (a row of CUSTOMER_TAXRATE).
#[derive(Clone, Copy)]
pub struct CustomerTax {
    pub customer: Id,
    pub tax: Id,
}

/// Parses the fields CUSTOMER and TAXRATE, both ids. Refuses with `BadText` (18).
pub fn check_customer_tax(fields: &[&[u8]]) -> Result<CustomerTax, Refusal>
    ensures { ParsesAs abstract_customer_tax result (read_customer_tax (texts_of_fields fields.now)) }
{
    let [customer, tax] = fields else {
        return Err(Refusal::BadText);
    };
    let Some(customer) = parse_id(customer) else {
        return Err(Refusal::BadText);
    };
    let Some(tax) = parse_id(tax) else {
        return Err(Refusal::BadText);
    };
    Ok(CustomerTax { customer, tax })
}
