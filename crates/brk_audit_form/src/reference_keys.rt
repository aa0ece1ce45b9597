//! The sort keys of KEPT and of the tables of reference data.

ghost use Rattle.brk_model.specs.Keys as keys;
ghost use Rattle.brk_ref.specs.Records as of;

use crate::keys::{Keyed, compare_ids, compare_texts};
use brk_ref::{
    AccountRow, Band, BrokerRow, Charge, Customer, CustomerTax, Key, LastTrade, Permission,
    Security, Tax,
};
use std::cmp::Ordering;

impl Keyed for Key {
    ghost key = { λ row. keys.kept_key (of.kept_row_with_empty_texts row) };

    fn compare_keys(&self, other: &Key) -> Ordering {
        compare_texts(&self.batch, &other.batch).then(self.n.get().cmp(&other.n.get()))
    }
}

impl Keyed for BrokerRow {
    ghost key = { λ row. keys.broker_key (of.abstract_broker_row row) };

    fn compare_keys(&self, other: &BrokerRow) -> Ordering {
        compare_ids(self.broker.id, other.broker.id)
    }
}

impl Keyed for Customer {
    ghost key = { λ row. keys.customer_key (of.abstract_customer row) };

    fn compare_keys(&self, other: &Customer) -> Ordering {
        compare_ids(self.id, other.id)
    }
}

impl Keyed for AccountRow {
    ghost key = { λ row. keys.account_key (of.abstract_account_row row) };

    fn compare_keys(&self, other: &AccountRow) -> Ordering {
        compare_ids(self.account.id, other.account.id)
    }
}

impl Keyed for Permission {
    ghost key = { λ row. keys.permission_key (of.abstract_permission row) };

    fn compare_keys(&self, other: &Permission) -> Ordering {
        compare_ids(self.account, other.account).then(compare_texts(&self.tax_id, &other.tax_id))
    }
}

impl Keyed for Security {
    ghost key = { λ row. keys.security_key (of.abstract_security_row row) };

    fn compare_keys(&self, other: &Security) -> Ordering {
        compare_texts(&self.symbol, &other.symbol)
    }
}

impl Keyed for LastTrade {
    ghost key = { λ row. keys.last_trade_key (of.abstract_last_trade_row row) };

    fn compare_keys(&self, other: &LastTrade) -> Ordering {
        compare_texts(&self.symbol, &other.symbol)
    }
}

impl Keyed for Charge {
    ghost key = { λ row. keys.charge_key (of.abstract_charge row) };

    fn compare_keys(&self, other: &Charge) -> Ordering {
        self.kind
            .code()
            .cmp(other.kind.code())
            .then(self.tier.get().cmp(&other.tier.get()))
    }
}

impl Keyed for Band {
    ghost key = { λ row. keys.band_key (of.abstract_band row) };

    fn compare_keys(&self, other: &Band) -> Ordering {
        let bound = self.from_qty.get().cmp(&other.from_qty.get());
        let exchange = compare_texts(&self.exchange, &other.exchange).then(bound);
        let kind = self.kind.code().cmp(other.kind.code()).then(exchange);
        self.tier.get().cmp(&other.tier.get()).then(kind)
    }
}

impl Keyed for Tax {
    ghost key = { λ row. keys.tax_rate_key (of.abstract_tax_rate row) };

    fn compare_keys(&self, other: &Tax) -> Ordering {
        compare_ids(self.id, other.id)
    }
}

impl Keyed for CustomerTax {
    ghost key = { λ row. keys.customer_tax_key (of.abstract_customer_tax row) };

    fn compare_keys(&self, other: &CustomerTax) -> Ordering {
        compare_ids(self.customer, other.customer).then(compare_ids(self.tax, other.tax))
    }
}
