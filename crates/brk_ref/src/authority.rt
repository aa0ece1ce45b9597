//! The check that an executor may place orders for an account.

ghost use Rattle.std.specs.Prelude.{◌≡◌, map};
ghost use Rattle.brk_model.specs.Orders as orders;
ghost use Rattle.brk_ref.specs.Records.{abstract_customer, abstract_executor, abstract_permission};

use crate::{Customer, Executor, Name, Permission, TaxId};

fn has_identity(executor: &Executor, first_name: &Name, last_name: &Name, tax_id: &TaxId) -> bool
    ensures { result ≡ orders.executor_has_identity (abstract_executor executor.now) first_name.now last_name.now tax_id.now }
{
    executor.first_name.as_str() == first_name.as_str()
        && executor.last_name.as_str() == last_name.as_str()
        && executor.tax_id.as_str() == tax_id.as_str()
}

fn is_person_of_permission(permission: &Permission, executor: &Executor) -> bool
    ensures { result ≡ orders.executor_has_identity (abstract_executor executor.now) permission.now.first_name permission.now.last_name permission.now.tax_id }
{
    has_identity(
        executor,
        &permission.first_name,
        &permission.last_name,
        &permission.tax_id,
    )
}

/// Returns true if the executor may place orders for an account of `customer` with these
/// permissions (Trade-Order): both names and the tax id match the customer's or those of one
/// permission.
pub fn permitted(customer: &Customer, permissions: &[Permission], executor: &Executor) -> bool
    ensures { result
        ≡ orders.is_customer_or_has_permission (abstract_customer customer.now) (map abstract_permission permissions.now) (abstract_executor executor.now) }
{
    has_identity(
        executor,
        &customer.first_name,
        &customer.last_name,
        &customer.tax_id,
    ) || permissions
        .iter()
        .any(|permission| is_person_of_permission(permission, executor))
}
