ghost use Rattle.std.specs.Prelude.{◌≡◌, ℕ, List, IfOk, OnOk};
ghost use Rattle.brk_model.specs.Ask.{read_broker_names};
ghost use Rattle.brk_model.specs.Forms.{read_each_text, read_name, one_to_twenty_elements};
ghost use Rattle.brk_model.specs.Lists.{distinct_texts};
ghost use Rattle.brk_ref.specs.Fields.{ParsesAs, texts_of_fields};
ghost use Rattle.brk_view_rows.specs.BrokerNames.{distinct_parsed_names, contains_name, names_of_vector, names_with_new_name};

use brk_money::{Planned, Refusal};
use brk_ref::Name;
use std::alloc::{AllocError, Global};
use std::marker::Model;

/// The 1 to 20 different broker names that a query names, in the sequence of their first
/// occurrences in its arguments.
#[derive(Drop)]
pub struct BrokerNames {
    names: Vec<Name>,
}

impl Model for BrokerNames {
    ghost use Rattle.std.specs.Prelude.{ℕ, List, length, ◌≤◌, ◌≡◌};
    ghost use Rattle.brk_model.specs.Lists.{distinct_texts};

    ghost Value = { List (List ℕ) };

    ghost view = { λ names. names.names.items };

    ghost invariant = { λ names. (1 ≤ length names.names.items) × (length names.names.items ≤ 20) × (distinct_texts names.names.items ≡ names.names.items) };
}

impl BrokerNames {
    /// The greatest number of names.
    pub const MOST: usize = 20;

    fn from_distinct(names: Vec<Name>) -> Result<BrokerNames, Refusal>
        requires { distinct_texts names.items ≡ names.items }
        ensures { ParsesAs (λ told. told) result (one_to_twenty_elements names.items) }
    {
        if names.is_empty() {
            return Err(Refusal::BadText);
        }
        if names.len() > BrokerNames::MOST {
            return Err(Refusal::TooMany);
        }
        Ok(BrokerNames { names })
    }

    pub fn names(&self) -> &[Name]
        ensures names { result.now ≡ self.now }
        ensures distinct { distinct_texts result.now ≡ result.now }
    {
        &self.names
    }
}

fn is_among_names(name: &Name, names: &[Name]) -> bool
    ensures { result ≡ contains_name names.now name.now }
{
    names.iter().any(|other| name.as_str() == other.as_str())
}

#[tactic(auto, using(crate::proofs::Distinct::still_distinct))]
fn push_new_name(names: &mut Vec<Name>, name: Name) -> Result<(), AllocError>
    ensures names { OnOk result (names.new.items ≡ names_with_new_name names.old.items name) }
{
    if !is_among_names(&name, names) {
        names.push(name)?;
    }
    Ok(())
}

fn parse_distinct_names(alloc: Global, fields: &[&[u8]]) -> Planned<Vec<Name>, AllocError>
    ensures read { IfOk result (λ read. ParsesAs names_of_vector read (distinct_parsed_names (read_each_text read_name (texts_of_fields fields.now)))) }
    ensures distinct { IfOk result (λ read. IfOk read (λ names. distinct_texts names.items ≡ names.items)) }
{
    let mut names = Vec::new(alloc);
    for field in fields {
        let Some(name) = Name::parse(alloc, field)? else {
            return Ok(Err(Refusal::BadText));
        };
        push_new_name(&mut names, name)?;
    }
    Ok(Ok(names))
}

/// Parses 1 to 20 broker names, one from each field; a repeated name counts once.
///
/// Refuses with `BadText` (18) if a field is malformed or there is no field, and otherwise with
/// `TooMany` (20) if there are more than 20 different names.
pub fn parse_brokers(alloc: Global, fields: &[&[u8]]) -> Planned<BrokerNames, AllocError>
    ensures read { IfOk result (λ read. ParsesAs (λ names. names) read (read_broker_names (texts_of_fields fields.now))) }
{
    match parse_distinct_names(alloc, fields)? {
        Ok(names) => Ok(BrokerNames::from_distinct(names)),
        Err(refusal) => Ok(Err(refusal)),
    }
}
