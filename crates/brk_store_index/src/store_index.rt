//! The index that a store may have, and what is read from it alone.

ghost use Rattle.std.specs.Prelude.{◌≡◌, ◌==◌, ◌&&◌, IfSome, bytes_eq, filter, find, map, option_map};
ghost use Rattle.brk_money.specs.Kinds.{is_same_trade_type};
ghost use Rattle.brk_model.specs.Lists.{total_by};
ghost use Rattle.brk_model.specs.Tables.{Tables};
ghost use Rattle.brk_ref.specs.Records.{abstract_band, abstract_charge, abstract_customer, abstract_customer_tax, abstract_security_row, abstract_tax_rate};
ghost use Rattle.brk_ref.specs.Rows.{abstract_summary_row};
ghost use Rattle.brk_store_index.specs.IfMade.{AreTaxesByAge, IsIndexIfMade};
ghost use Rattle.brk_store_index.specs.Prices.{market_value_of_summary};
ghost use Rattle.brk_store_index.specs.Terms.{AreTermsOf};

use crate::index::RowIndex;
use crate::terms::Terms;
use brk_money::{Id, Price, TradeType, Wide};
use brk_ref::{
    Band, Charge, Customer, CustomerTax, Exchange, Security, SummaryRow, Symbol, Tax, Tier,
};
use std::alloc::Global;

/// The index of a store: of its tables, if it has one.
#[derive(Drop)]
pub enum StoreIndex {
    /// The database has the tables of a desk. The first read that could use the index makes it.
    Unmade,
    Made(RowIndex),
    /// Reads scan the tables.
    Absent,
}

// What each function returns, it returns as `Some`. It returns `None` if there is no index, or if
// memory is refused.
impl StoreIndex {
    /// Returns the market value of holdings at last prices. Returns `None` also if a security has no
    /// last price, or if the value overflows.
    pub fn market_value(&self, rows: &[SummaryRow]) -> Option<Wide>
        ensures { (t : Tables) → IsIndexIfMade self.now t
            → IfSome result (λ value. value ≡ total_by (market_value_of_summary t) (map abstract_summary_row rows.now)) }
    {
        match self {
            StoreIndex::Made(index) => index.market_value(rows),
            StoreIndex::Unmade | StoreIndex::Absent => None,
        }
    }

    /// Returns the last price of the security, in cents.
    pub fn last_price(&self, symbol: &Symbol) -> Option<Option<Price>>
        ensures { IfSome result (λ price. (t : Tables) → IsIndexIfMade self.now t
            → price ≡ option_map (λ r. r.price) (find (λ r. bytes_eq r.symbol symbol.now) t.last_trades)) }
    {
        match self {
            StoreIndex::Made(index) => Some(index.last_price(symbol)),
            StoreIndex::Unmade | StoreIndex::Absent => None,
        }
    }

    fn terms(&self) -> Option<&Terms>
        ensures { IfSome result (λ terms. (t : Tables) → IsIndexIfMade self.now t → AreTermsOf terms.now t) }
    {
        match self {
            StoreIndex::Made(index) => Some(index.terms()),
            StoreIndex::Unmade | StoreIndex::Absent => None,
        }
    }

    /// Returns the charge of a trade type and a customer tier.
    pub fn charge(&self, kind: TradeType, tier: Tier) -> Option<Option<Charge>>
        ensures { IfSome result (λ charge. (t : Tables) → IsIndexIfMade self.now t
            → option_map abstract_charge charge ≡ find (λ r. is_same_trade_type r.kind kind && (r.tier == tier)) t.charges) }
    {
        match self.terms() {
            Some(terms) => Some(terms.charge(kind, tier)),
            None => None,
        }
    }

    /// Returns the commission bands of a customer tier, a trade type and an exchange, sorted by lower
    /// bound, ascending.
    pub fn bands(
        &self,
        alloc: Global,
        tier: Tier,
        kind: TradeType,
        exchange: &Exchange,
    ) -> Option<Vec<Band>>
        ensures { IfSome result (λ bands. (t : Tables) → IsIndexIfMade self.now t → map abstract_band bands.items
            ≡ filter (λ r. (r.tier == tier) && is_same_trade_type r.kind kind && bytes_eq r.exchange exchange.now) t.bands) }
    {
        let Some(terms) = self.terms() else {
            return None;
        };
        match terms.bands(alloc, tier, kind, exchange) {
            Ok(bands) => Some(bands),
            Err(_) => None,
        }
    }

    /// Returns the tax with the id, with its rate.
    pub fn tax(&self, id: Id) -> Option<Option<Tax>>
        ensures { IfSome result (λ tax. (t : Tables) → IsIndexIfMade self.now t → option_map abstract_tax_rate tax ≡ find (λ r. r.id == id) t.tax_rates) }
    {
        let Some(terms) = self.terms() else {
            return None;
        };
        match terms.tax(id) {
            Ok(tax) => Some(tax),
            Err(_) => None,
        }
    }

    /// Returns a row of CUSTOMER_TAXRATE for each tax that the customer pays, sorted by the id of the
    /// tax, ascending.
    pub fn taxes_of_customer(&self, alloc: Global, customer: Id) -> Option<Vec<CustomerTax>>
        ensures { IfSome result (λ all. (t : Tables) → IsIndexIfMade self.now t → AreTaxesByAge customer t.customer_taxes (map abstract_customer_tax all.items)) }
    {
        let Some(terms) = self.terms() else {
            return None;
        };
        match terms.taxes_of_customer(alloc, customer) {
            Ok(all) => Some(all),
            Err(_) => None,
        }
    }

    /// Returns the customer with the id.
    pub fn customer(&self, id: Id) -> Option<Option<Customer>>
        ensures { IfSome result (λ customer. (t : Tables) → IsIndexIfMade self.now t → option_map abstract_customer customer ≡ find (λ r. r.id == id) t.customers) }
    {
        let Some(terms) = self.terms() else {
            return None;
        };
        match terms.customer(id) {
            Ok(customer) => Some(customer),
            Err(_) => None,
        }
    }

    /// Returns the security with the symbol.
    pub fn security(&self, symbol: &Symbol) -> Option<Option<Security>>
        ensures { IfSome result (λ security. (t : Tables) → IsIndexIfMade self.now t
            → option_map abstract_security_row security ≡ find (λ r. bytes_eq r.symbol symbol.now) t.securities) }
    {
        let Some(terms) = self.terms() else {
            return None;
        };
        match terms.security(symbol) {
            Ok(security) => Some(security),
            Err(_) => None,
        }
    }
}
