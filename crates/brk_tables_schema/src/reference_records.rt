//! The decoding of the rows of reference data, column by column.

ghost use Rattle.brk_ref.specs.Records.{abstract_account_row, abstract_band, abstract_broker_row, abstract_charge, abstract_customer};
ghost use Rattle.brk_ref.specs.Records.{abstract_customer_tax, abstract_permission, abstract_security_row, abstract_tax_rate};
ghost use Rattle.brk_tables_schema.specs.Cells.{account_cells, band_cells, broker_cells, charge_cells, customer_cells};
ghost use Rattle.brk_tables_schema.specs.Cells.{customer_tax_cells, permission_cells, security_cells, tax_rate_cells};
ghost use Rattle.brk_tables_schema.specs.Formed.{account_column_cell_checks, band_column_cell_checks, broker_column_cell_checks};
ghost use Rattle.brk_tables_schema.specs.Formed.{charge_column_cell_checks, customer_column_cell_checks, customer_tax_column_cell_checks};
ghost use Rattle.brk_tables_schema.specs.Formed.{permission_column_cell_checks, security_column_cell_checks, tax_rate_column_cell_checks};

use crate::cells::{
    cents_cell, charge_cell, check_column_count, formed_text_cell, id_cell, integer_cell,
    natural_cell, qty_cell, rate_cell, tax_rate_cell, tax_status_cell, tier_cell, trade_type_cell,
};
use crate::decode_error::DecodeError;
use crate::record::Record;
use brk_ref::{
    Account, AccountRow, Band, Broker, BrokerRow, Charge, Customer, CustomerTax, Permission,
    Security, Tax,
};
use sqlite::Row;

impl Record for AccountRow {
    ghost cells = { λ r. account_cells (abstract_account_row r) };

    ghost forms = { account_column_cell_checks };

    fn from_row(row: &Row) -> Result<AccountRow, DecodeError> {
        check_column_count(row, 7)?;
        Ok(AccountRow {
            account: Account {
                id: id_cell(row, 0)?,
                customer: id_cell(row, 1)?,
                broker: id_cell(row, 2)?,
                name: formed_text_cell(row, 3)?,
                tax_status: tax_status_cell(row, 4)?,
                opening: cents_cell(row, 5)?,
            },
            balance: cents_cell(row, 6)?,
        })
    }
}

impl Record for Band {
    ghost cells = { λ r. band_cells (abstract_band r) };

    ghost forms = { band_column_cell_checks };

    fn from_row(row: &Row) -> Result<Band, DecodeError> {
        check_column_count(row, 6)?;
        Ok(Band {
            tier: tier_cell(row, 0)?,
            kind: trade_type_cell(row, 1)?,
            exchange: formed_text_cell(row, 2)?,
            from_qty: qty_cell(row, 3)?,
            to_qty: qty_cell(row, 4)?,
            rate: rate_cell(row, 5)?,
        })
    }
}

impl Record for BrokerRow {
    ghost cells = { λ r. broker_cells (abstract_broker_row r) };

    ghost forms = { broker_column_cell_checks };

    fn from_row(row: &Row) -> Result<BrokerRow, DecodeError> {
        check_column_count(row, 4)?;
        Ok(BrokerRow {
            broker: Broker {
                id: id_cell(row, 0)?,
                name: formed_text_cell(row, 1)?,
            },
            trades: integer_cell(row, 2)?,
            commissions: natural_cell(row, 3)?,
        })
    }
}

impl Record for Charge {
    ghost cells = { λ r. charge_cells (abstract_charge r) };

    ghost forms = { charge_column_cell_checks };

    fn from_row(row: &Row) -> Result<Charge, DecodeError> {
        check_column_count(row, 3)?;
        Ok(Charge {
            kind: trade_type_cell(row, 0)?,
            tier: tier_cell(row, 1)?,
            amount: charge_cell(row, 2)?,
        })
    }
}

impl Record for Customer {
    ghost cells = { λ r. customer_cells (abstract_customer r) };

    ghost forms = { customer_column_cell_checks };

    fn from_row(row: &Row) -> Result<Customer, DecodeError> {
        check_column_count(row, 5)?;
        Ok(Customer {
            id: id_cell(row, 0)?,
            tier: tier_cell(row, 1)?,
            tax_id: formed_text_cell(row, 2)?,
            last_name: formed_text_cell(row, 3)?,
            first_name: formed_text_cell(row, 4)?,
        })
    }
}

impl Record for Permission {
    ghost cells = { λ r. permission_cells (abstract_permission r) };

    ghost forms = { permission_column_cell_checks };

    fn from_row(row: &Row) -> Result<Permission, DecodeError> {
        check_column_count(row, 5)?;
        Ok(Permission {
            account: id_cell(row, 0)?,
            tax_id: formed_text_cell(row, 1)?,
            acl: formed_text_cell(row, 2)?,
            last_name: formed_text_cell(row, 3)?,
            first_name: formed_text_cell(row, 4)?,
        })
    }
}

impl Record for Security {
    ghost cells = { λ r. security_cells (abstract_security_row r) };

    ghost forms = { security_column_cell_checks };

    fn from_row(row: &Row) -> Result<Security, DecodeError> {
        check_column_count(row, 4)?;
        Ok(Security {
            symbol: formed_text_cell(row, 0)?,
            name: formed_text_cell(row, 1)?,
            exchange: formed_text_cell(row, 2)?,
            sector: formed_text_cell(row, 3)?,
        })
    }
}

impl Record for Tax {
    ghost cells = { λ r. tax_rate_cells (abstract_tax_rate r) };

    ghost forms = { tax_rate_column_cell_checks };

    fn from_row(row: &Row) -> Result<Tax, DecodeError> {
        check_column_count(row, 3)?;
        Ok(Tax {
            id: id_cell(row, 0)?,
            name: formed_text_cell(row, 1)?,
            rate: tax_rate_cell(row, 2)?,
        })
    }
}

impl Record for CustomerTax {
    ghost cells = { λ r. customer_tax_cells (abstract_customer_tax r) };

    ghost forms = { customer_tax_column_cell_checks };

    fn from_row(row: &Row) -> Result<CustomerTax, DecodeError> {
        check_column_count(row, 2)?;
        Ok(CustomerTax {
            customer: id_cell(row, 0)?,
            tax: id_cell(row, 1)?,
        })
    }
}
