//! The estimate of an order, and the tax on a realised gain, which a result has too.

ghost use Rattle.std.specs.Prelude.{◌≡◌, ◌-ℤ◌, ℕ, Bool, List, drop, false, IfOk, IfErr, pos};
ghost use Rattle.brk_model.specs.Base.{Base, completed_trades};
ghost use Rattle.brk_model.specs.Commands.{Order};
ghost use Rattle.brk_model.specs.Derived.{shares_of_position};
ghost use Rattle.brk_model.specs.Orders as spec_orders;
ghost use Rattle.brk_lots.specs.declared.lot.Lot.{Lot};
ghost use Rattle.brk_lots.specs.Lots.{shares_of_lots};
ghost use Rattle.brk_lots.specs.Against.{is_trade_closing_lots};
ghost use Rattle.brk_lots.specs.Books.{lot_quantity_sum};
ghost use Rattle.brk_lots.specs.Sources.{YieldsPosition, AreLotsOfFaithfulSource, RequestsLots};
ghost use Rattle.brk_lots.specs.Values.{closing_values_of_deal};
ghost use Rattle.brk_trade.specs.Estimates.{AreOrderTermsInBase, OrderReadsAtMostOneLotMore, commission_from_terms, deal_from_terms, tax_on_gain_at_status};
ghost use Rattle.brk_trade_plans.specs.Replies.{estimate_from_model};

use brk_lots::{LotSource, Values, estimate_values, is_trade_closing_lots, zero_values};
use brk_money::{
    Amount, Cents, Fault, Price, Qty, Rate, Side, TaxRate, TaxStatus, Wide, commission, tax,
};
use brk_ref::{ChargeAmount, is_taxable_status};
use brk_trade_plans::Estimate;

/// The terms of an order, from which it is estimated.
#[derive(Clone, Copy, PartialEq, Eq)]
pub struct Terms {
    pub side: Side,
    pub qty: Qty,
    /// The requested price in cents: the last price for a market order, otherwise the order's own.
    pub price: Price,
    pub tax_status: TaxStatus,
    /// The sum of the tax rates that the account's customer pays, in hundred-thousandths.
    pub rates: TaxRate,
    /// The commission rate of the band of the quantity, in hundredths of a percent.
    pub rate: Rate,
    /// The charge of the order's type and the customer's tier, in cents.
    pub charge: ChargeAmount,
    /// The balance of the account plus the market value of its holdings, in cents.
    pub assets: Wide,
    /// The number of shares of the security that the account holds in all, negative if sold short.
    pub held: i64,
}

fn gain_of_values(values: Values) -> Cents
    ensures { result ≡ pos values.sell_value -ℤ pos values.buy_value }
{
    Cents::new(values.sell_value.get() as i64 - values.buy_value.get() as i64).unwrap()
}

/// Returns the tax on the realised gain of shares, in whole cents, rounded half up; 0 without a
/// gain, or if gains are not taxable at the tax status. `rates` is the sum of the rates that the
/// account's customer pays, in hundred-thousandths.
pub fn tax_on_realised_gain(values: Values, status: TaxStatus, rates: TaxRate) -> Amount
    ensures { result ≡ tax_on_gain_at_status status rates values }
{
    if is_taxable_status(status) {
        tax(gain_of_values(values), rates).unsigned_abs()
    } else {
        Amount::new(0).unwrap()
    }
}

fn closing_values<L: LotSource>(source: &mut L, terms: &Terms) -> Result<Values, Fault>
    ensures source { RequestsLots L.leads L.reads_faithfully L.remaining L.asked L.faulted L.fails (λ _. ⊥) terms.now.qty source.old source.new result }

    // At `Ok` the values of exactly the shares that the order would close.
    ensures values { IfOk result (λ values. (ls : List Lot) (trade stamp : ℕ) (lifo : Bool) →
        YieldsPosition (AreLotsOfFaithfulSource (L.reads_faithfully source.new) (L.remaining source.old)) lifo ls → terms.now.held ≡ lot_quantity_sum ls →
        values ≡ closing_values_of_deal (deal_from_terms terms.now trade stamp lifo) (shares_of_lots ls)) }

    // The number of lots requested, also if the call fails.
    ensures asked { OrderReadsAtMostOneLotMore terms.now
        (AreLotsOfFaithfulSource (L.reads_faithfully source.new) (L.remaining source.old)) (L.asked source.old) (L.asked source.new) }
    ensures reads_no_lot { is_trade_closing_lots terms.now.side terms.now.held ≡ false → source.new ≡ source.old }
{
    if is_trade_closing_lots(terms.side, terms.held) {
        estimate_values(source, terms.side, terms.qty, terms.price)
    } else {
        Ok(zero_values())
    }
}

/// Returns the estimated figures of an order, in cents (Trade-Order). `source` returns the lots of
/// its account and symbol in the sequence in which the order closes them.
///
/// The figures that depend on lots are specified only if the lots form a position whose quantities
/// sum to `terms.held`, and only under the disk assumption. Fails only with a fault of the source.
pub fn estimate_order<L: LotSource>(source: &mut L, terms: &Terms) -> Result<Estimate, Fault>
    ensures leads { L.leads source.old source.new }
    // The estimate equals the model's estimate, in a base that has the terms and the shares of the
    // lots.
    ensures estimate { IfOk result (λ estimate. (base : Base) (o : Order) (ls : List Lot) →
        AreOrderTermsInBase base o terms.now → shares_of_position (completed_trades base) o.account o.symbol ≡ shares_of_lots ls
        → YieldsPosition (AreLotsOfFaithfulSource (L.reads_faithfully source.new) (L.remaining source.old)) o.is_lifo ls →
        terms.now.held ≡ lot_quantity_sum ls → estimate ≡ estimate_from_model (spec_orders.estimate base o)) }
    ensures commission { IfOk result (λ estimate. estimate.commission ≡ commission_from_terms terms.now) }
    // It reads at most one lot more than the order would close or reduce, also if it fails, and
    // none if the account holds no shares that the order would close.
    ensures asked { OrderReadsAtMostOneLotMore terms.now
        (AreLotsOfFaithfulSource (L.reads_faithfully source.new) (L.remaining source.old)) (L.asked source.old) (L.asked source.new) }
    ensures reads_no_lot { is_trade_closing_lots terms.now.side terms.now.held ≡ false → source.new ≡ source.old }
    // At `Ok` the source counted no fault; a fault is one with which a call of the source failed.
    ensures faulted { IfOk result (λ estimate. L.faulted source.new ≡ L.faulted source.old) }
    ensures fault { IfErr result (λ fault. (before : L) × L.fails before fault source.new) }
    // Under the disk assumption, the lots that it did not take remain in the source.
    ensures rest { (ls : List Lot) → AreLotsOfFaithfulSource (L.reads_faithfully source.new) (L.remaining source.old) ls
        → (n : ℕ) × L.remaining source.new (drop n ls) }
{
    let values = closing_values(source, terms)?;
    Ok(Estimate {
        price: terms.price,
        buy_value: values.buy_value,
        sell_value: values.sell_value,
        tax: tax_on_realised_gain(values, terms.tax_status, terms.rates),
        commission: commission(terms.rate, terms.qty, terms.price).unsigned_abs(),
        charge: Amount::new(u64::from(terms.charge.get())).unwrap(),
        assets: terms.assets,
    })
}
