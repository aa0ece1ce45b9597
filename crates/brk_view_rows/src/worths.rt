//! The views `customer` and `taxid`: the balances and market values of a customer's accounts.
//! `position` is named for Customer-Position, not for a position in a security.

ghost use Rattle.std.specs.Prelude.{◌≡◌, ◌&&◌, ◌==◌, Bool, Err, IfOk, OnErr, filter, map};
ghost use Rattle.std.specs.Global.{Vec};
ghost use Rattle.std.specs.List.{list_any};
ghost use Rattle.brk_model.specs.Lists.{sort_by};
ghost use Rattle.brk_model.specs.PositionView.{customer_position_view};
ghost use Rattle.brk_model.specs.Records as records;
ghost use Rattle.brk_model.specs.Tables.{Tables};
ghost use Rattle.brk_money.specs.declared.fault.Fault.TheVariants.{Memory};
ghost use Rattle.brk_view_rows.specs.Views.{records_of_view};
ghost use Rattle.brk_view_rows.specs.Worths.{is_worth_before_by_market_value, worth_of_account, account_worth_record};
ghost use Rattle.brk_view_rows.specs.declared.view.View.TheVariants as views;
ghost use Rattle.brk_view_rows.specs.declared.worths.AccountWorth.{AccountWorth};

use crate::ordering::{Ranked, sort_by_rank};
use crate::view::View;
use brk_money::{Cents, Fault, Id, Wide};
use std::alloc::Global;

/// The balance and the market value of an account.
#[derive(Clone, Copy)]
pub struct AccountWorth {
    pub account: Id,
    /// Its balance (CA_BAL), in cents.
    pub balance: Cents,
    /// The market value of its holdings at last prices, in cents. Shares sold short count below 0.
    pub assets: Wide,
}

impl Ranked for AccountWorth {
    ghost before = { is_worth_before_by_market_value };

    /// Ranks by market value, then by id, ascending.
    fn ranks_before(&self, other: &AccountWorth) -> bool {
        if self.assets.get() == other.assets.get() {
            return self.account.get() < other.account.get();
        }
        self.assets.get() < other.assets.get()
    }
}

/// Returns the view of a customer's accounts (Customer-Position), sorted by market value, then by
/// id, ascending. The caller passes exactly these accounts, in the sequence of the table. Fails
/// with `Memory` only.
pub fn position(alloc: Global, accounts: Vec<AccountWorth>) -> Result<View, Fault>
    ensures records { IfOk result (λ view. records_of_view view ≡ map account_worth_record (sort_by is_worth_before_by_market_value accounts.items)) }
    ensures value { IfOk result (λ view. (sorted : Vec AccountWorth)
        × (view ≡ views.Position sorted) × (sorted.items ≡ sort_by is_worth_before_by_market_value accounts.items)) }
    // If the accounts, with their values, equal those of the customers that pass a test, in the
    // sequence of the table, the view equals the specified view.
    ensures view { IfOk result (λ view. (t : Tables) (test : records.Customer → Bool)
        → accounts.items ≡ map (worth_of_account t) (filter (λ a. list_any (λ c. test c && (c.id == a.customer)) t.customers) t.accounts)
        → records_of_view view ≡ customer_position_view t test) }
    ensures fault { OnErr result (result ≡ Err Memory) }
{
    let ordered = sort_by_rank(alloc, accounts)?;
    Ok(View::Position(ordered))
}
