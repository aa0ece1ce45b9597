//! The checks of the rows of reference tables: brokers, customers, accounts, securities and so on.

ghost use Rattle.brk_model.specs.Form as form;
ghost use Rattle.brk_ref.specs.Records as of;

use crate::limits::{
    is_valid_cents, is_valid_charge, is_valid_id, is_valid_price, is_valid_qty, is_valid_stamp,
    is_valid_text, is_valid_tier,
};
use crate::references::{
    has_account, has_broker, has_customer, has_last_trade, has_security, has_tax_rate,
};
use crate::rows::Formed;
use brk_money::{Amount, Rate, TaxRate};
use brk_ref::{
    AccountRow, Band, BrokerRow, Charge, Customer, CustomerTax, Key, LastTrade, Permission,
    RowNumber, Security, Tax, Volume,
};
use brk_trade_rows::{Schema, Sheets};

impl Formed for Key {
    ghost form = { λ schema tables row. form.is_well_formed_kept_row (of.kept_row_with_empty_texts row) };

    fn is_valid_row(&self, _schema: Schema, _sheets: &Sheets) -> bool {
        is_valid_text(&self.batch) && 1 <= self.n.get() && self.n.get() <= RowNumber::GREATEST
    }
}

impl Formed for BrokerRow {
    ghost form = { λ schema tables row. form.is_well_formed_broker_row (of.abstract_broker_row row) };

    // The condition `Count` checks the trade count.
    fn is_valid_row(&self, _schema: Schema, _sheets: &Sheets) -> bool {
        is_valid_id(self.broker.id)
            && is_valid_text(&self.broker.name)
            && self.commissions <= Amount::GREATEST
    }
}

impl Formed for Customer {
    ghost form = { λ schema tables row. form.is_well_formed_customer_row (of.abstract_customer row) };

    fn is_valid_row(&self, _schema: Schema, _sheets: &Sheets) -> bool {
        is_valid_id(self.id)
            && is_valid_tier(self.tier)
            && is_valid_text(&self.tax_id)
            && is_valid_text(&self.last_name)
            && is_valid_text(&self.first_name)
    }
}

impl Formed for AccountRow {
    ghost form = { λ schema tables row. form.is_well_formed_account_row tables (of.abstract_account_row row) };

    fn is_valid_row(&self, _schema: Schema, sheets: &Sheets) -> bool {
        is_valid_id(self.account.id)
            && is_valid_text(&self.account.name)
            && is_valid_cents(self.account.opening)
            && is_valid_cents(self.balance)
            && has_customer(sheets, self.account.customer)
            && has_broker(sheets, self.account.broker)
    }
}

impl Formed for Permission {
    ghost form = { λ schema tables row. form.is_well_formed_permission_row tables (of.abstract_permission row) };

    fn is_valid_row(&self, _schema: Schema, sheets: &Sheets) -> bool {
        is_valid_text(&self.acl)
            && is_valid_text(&self.tax_id)
            && is_valid_text(&self.last_name)
            && is_valid_text(&self.first_name)
            && has_account(sheets, self.account)
    }
}

impl Formed for Security {
    ghost form = { λ schema tables row. form.is_well_formed_security_row tables (of.abstract_security_row row) };

    fn is_valid_row(&self, _schema: Schema, sheets: &Sheets) -> bool {
        is_valid_text(&self.symbol)
            && is_valid_text(&self.name)
            && is_valid_text(&self.exchange)
            && is_valid_text(&self.sector)
            && has_last_trade(sheets, &self.symbol)
    }
}

impl Formed for LastTrade {
    ghost form = { λ schema tables row. form.is_well_formed_last_trade_row tables (of.abstract_last_trade_row row) };

    fn is_valid_row(&self, _schema: Schema, sheets: &Sheets) -> bool {
        has_security(sheets, &self.symbol)
            && is_valid_stamp(sheets, self.stamp)
            && is_valid_price(self.price)
            && self.volume.get() <= Volume::GREATEST
    }
}

impl Formed for Charge {
    ghost form = { λ schema tables row. form.is_well_formed_charge_row (of.abstract_charge row) };

    fn is_valid_row(&self, _schema: Schema, _sheets: &Sheets) -> bool {
        is_valid_tier(self.tier) && is_valid_charge(self.amount)
    }
}

impl Formed for Band {
    ghost form = { λ schema tables row. form.is_well_formed_band_row schema (of.abstract_band row) };

    fn is_valid_row(&self, schema: Schema, _sheets: &Sheets) -> bool {
        is_valid_tier(self.tier)
            && is_valid_text(&self.exchange)
            && is_valid_qty(schema, self.from_qty)
            && is_valid_qty(schema, self.to_qty)
            && self.from_qty.get() <= self.to_qty.get()
            && self.rate.get() <= Rate::GREATEST
    }
}

impl Formed for Tax {
    ghost form = { λ schema tables row. form.is_well_formed_tax_rate_row (of.abstract_tax_rate row) };

    fn is_valid_row(&self, _schema: Schema, _sheets: &Sheets) -> bool {
        is_valid_id(self.id) && is_valid_text(&self.name) && self.rate.get() <= TaxRate::GREATEST
    }
}

impl Formed for CustomerTax {
    ghost form = { λ schema tables row. form.is_well_formed_customer_tax_row tables (of.abstract_customer_tax row) };

    fn is_valid_row(&self, _schema: Schema, sheets: &Sheets) -> bool {
        has_customer(sheets, self.customer) && has_tax_rate(sheets, self.tax)
    }
}
