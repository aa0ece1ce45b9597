//! Reads of permissions, securities, charges, commission bands and taxes. All but permissions and a
//! single tax of a customer are read from memory if the store has an index.
#![tactic(auto, using(brk_store_transactions::proofs::Ending::read_is_over, crate::proofs::KeptIndex::read_keeps_index))]

ghost use Rattle.std.specs.Prelude.{◌==◌, ◌&&◌, bytes_eq};
ghost use Rattle.brk_money.specs.Kinds.{is_same_trade_type};
ghost use Rattle.brk_ref.specs.Records.{abstract_band, abstract_charge, abstract_customer_tax, abstract_permission, abstract_security_row, abstract_tax_rate};
ghost use Rattle.brk_store_transactions.specs.Holds.{ReadPost};
ghost use Rattle.brk_tables_schema.specs.Desk.{Bands, Charges, CustomerTaxes, Permissions, Securities, TaxRates};
ghost use Rattle.brk_tables_schema.specs.Statements.{IsFirstMatch, AreMatchingRows};

use crate::Store;
use crate::known::{known_if_open, known_rows_if_open};
use brk_money::{CallFault, Id, StoreFailed, TradeType};
use brk_ref::{
    Band, Charge, CustomerTax, Exchange, Permission, Security, Symbol, Tax, TaxId, Tier,
};
use brk_store_transactions::begin_transaction;
use sqlite::Alter;
use std::alloc::Global;

impl<S: Alter> Store<S> {
    /// Returns the permission of a person, by tax number (AP_TAX_ID), to order for an account.
    pub fn permission(
        &mut self,
        account: Id,
        tax_id: &TaxId,
    ) -> Result<Option<Permission>, StoreFailed>
        ensures read { ReadPost S.Store self.old self.new result (IsFirstMatch Permissions abstract_permission (λ r. (r.account == account)
            && bytes_eq r.tax_id tax_id.now)) }
    {
        let mut tx = begin_transaction(&mut self.conn);
        brk_tables_reference::permission_for(&mut tx, account, tax_id)
    }

    /// Returns the security with the symbol.
    pub fn security(&mut self, symbol: &Symbol) -> Result<Option<Security>, StoreFailed>
        ensures read { ReadPost S.Store self.old self.new result (IsFirstMatch Securities abstract_security_row (λ r. bytes_eq r.symbol symbol.now)) }
    {
        if let Some(security) = self.index.security(symbol) {
            return known_if_open(&mut self.conn, security);
        }
        let mut tx = begin_transaction(&mut self.conn);
        brk_tables_reference::security_by_symbol(&mut tx, symbol)
    }

    /// Returns the charge of a trade type and a customer tier.
    pub fn charge(&mut self, kind: TradeType, tier: Tier) -> Result<Option<Charge>, StoreFailed>
        ensures read { ReadPost S.Store self.old self.new result (IsFirstMatch Charges abstract_charge (λ r. is_same_trade_type r.kind kind
            && (r.tier == tier))) }
    {
        if let Some(charge) = self.index.charge(kind, tier) {
            return known_if_open(&mut self.conn, charge);
        }
        let mut tx = begin_transaction(&mut self.conn);
        brk_tables_reference::charge_for(&mut tx, kind, tier)
    }

    /// Returns the commission bands of a customer tier, a trade type and an exchange, sorted by
    /// lower bound, ascending.
    pub fn commission_bands(
        &mut self,
        alloc: Global,
        tier: Tier,
        kind: TradeType,
        exchange: &Exchange,
    ) -> Result<Vec<Band>, CallFault>
        ensures read { ReadPost S.Store self.old self.new result (AreMatchingRows Bands abstract_band (λ r. (r.tier == tier) && is_same_trade_type r.kind kind
            && bytes_eq r.exchange exchange.now)) }
    {
        if let Some(bands) = self.index.bands(alloc, tier, kind, exchange) {
            return known_rows_if_open(&mut self.conn, bands);
        }
        let mut tx = begin_transaction(&mut self.conn);
        brk_tables_reference::bands_for(&mut tx, alloc, tier, kind, exchange)
    }

    /// Returns the tax with the id, with its rate.
    pub fn tax_with_id(&mut self, id: Id) -> Result<Option<Tax>, StoreFailed>
        ensures read { ReadPost S.Store self.old self.new result (IsFirstMatch TaxRates abstract_tax_rate (λ r. r.id == id)) }
    {
        if let Some(tax) = self.index.tax(id) {
            return known_if_open(&mut self.conn, tax);
        }
        let mut tx = begin_transaction(&mut self.conn);
        brk_tables_reference::tax_rate_by_id(&mut tx, id)
    }

    /// Returns the row of CUSTOMER_TAXRATE, if the customer pays the tax.
    pub fn customer_tax(
        &mut self,
        customer: Id,
        tax: Id,
    ) -> Result<Option<CustomerTax>, StoreFailed>
        ensures read { ReadPost S.Store self.old self.new result (IsFirstMatch CustomerTaxes abstract_customer_tax (λ r. (r.customer == customer)
            && (r.tax == tax))) }
    {
        let mut tx = begin_transaction(&mut self.conn);
        brk_tables_reference::customer_tax_by_ids(&mut tx, customer, tax)
    }

    /// Returns a row of CUSTOMER_TAXRATE for each tax that the customer pays, sorted by the id of
    /// the tax, ascending.
    pub fn taxes_of_customer(
        &mut self,
        alloc: Global,
        customer: Id,
    ) -> Result<Vec<CustomerTax>, CallFault>
        ensures read { ReadPost S.Store self.old self.new result (AreMatchingRows CustomerTaxes abstract_customer_tax (λ r. r.customer == customer)) }
    {
        if let Some(all) = self.index.taxes_of_customer(alloc, customer) {
            return known_rows_if_open(&mut self.conn, all);
        }
        let mut tx = begin_transaction(&mut self.conn);
        brk_tables_reference::taxes_of_customer(&mut tx, alloc, customer)
    }
}
