ghost use Rattle.std.specs.Prelude.{◌≡◌, ◌∷◌, [], IfOk, OnErr, Err};
ghost use Rattle.brk_model.specs.Parse.{read_permission};
ghost use Rattle.brk_money.specs.declared.fault.Fault.TheVariants.{Memory};
ghost use Rattle.brk_ref.specs.Records.{abstract_permission};
ghost use Rattle.brk_ref.specs.Fields.{ParsesAs, texts_of_fields};

use crate::acl::Acl;
use crate::name::Name;
use crate::numbers::parse_id;
use crate::tax_id::TaxId;
use brk_money::{Id, Planned, Refusal};
use std::alloc::{AllocError, Global};

/// A person who, besides the account's customer, may place orders for an account (a row of
/// ACCOUNT_PERMISSION).
#[derive(Clone, Drop)]
pub struct Permission {
    pub account: Id,
    pub acl: Acl,
    pub tax_id: TaxId,
    pub last_name: Name,
    pub first_name: Name,
}

fn parse_permission(
    alloc: Global,
    account: &[u8],
    acl: &[u8],
    tax_id: &[u8],
    last_name: &[u8],
    first_name: &[u8],
) -> Planned<Permission, AllocError>
    ensures { IfOk result (λ read. ParsesAs abstract_permission read (read_permission (account.now ∷ acl.now ∷ tax_id.now ∷ last_name.now ∷ first_name.now
        ∷ []))) }
{
    let Some(account) = parse_id(account) else {
        return Ok(Err(Refusal::BadText));
    };
    let Some(acl) = Acl::parse(alloc, acl)? else {
        return Ok(Err(Refusal::BadText));
    };
    let Some(tax_id) = TaxId::parse(alloc, tax_id)? else {
        return Ok(Err(Refusal::BadText));
    };
    let Some(last_name) = Name::parse(alloc, last_name)? else {
        return Ok(Err(Refusal::BadText));
    };
    let Some(first_name) = Name::parse(alloc, first_name)? else {
        return Ok(Err(Refusal::BadText));
    };
    Ok(Ok(Permission {
        account,
        acl,
        tax_id,
        last_name,
        first_name,
    }))
}

/// Parses the fields ACCOUNT, ACL, TAXID, LAST and FIRST. Refuses with `BadText` (18).
pub fn check_permission(alloc: Global, fields: &[&[u8]]) -> Planned<Permission>
    ensures read { IfOk result (λ read. ParsesAs abstract_permission read (read_permission (texts_of_fields fields.now))) }
    ensures fault { OnErr result (result ≡ Err Memory) }
{
    let [account, acl, tax_id, last_name, first_name] = fields else {
        return Ok(Err(Refusal::BadText));
    };
    Ok(parse_permission(alloc, account, acl, tax_id, last_name, first_name)?)
}
