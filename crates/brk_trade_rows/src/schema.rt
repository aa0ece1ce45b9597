ghost use Rattle.std.specs.Prelude.{◌≡◌};
ghost use Rattle.brk_trade_rows.specs.Schemas.{abstract_schema};

use brk_money::Qty;

/// A schema of a database (D_SCHEMA). A desk uses the third; a database of an older schema is
/// upgraded to it.
#[derive(Clone, Copy, PartialEq, Eq)]
pub enum Schema {
    /// Each cash row belongs to a trade (CASH_TRANSACTION).
    First,
    /// Cash rows are numbered, and belong to a trade or are a deposit or a withdrawal (CASH_MOVE).
    Second,
    /// In addition to the second: the first day of one-day settlement can be set (SETTLE_RULE), and
    /// the limits of quantities are greater.
    Third,
}

impl Schema {
    /// Returns the number of the schema (D_SCHEMA).
    pub fn number(self) -> u32
        ensures { result ≡ (abstract_schema self).number }
    {
        match self {
            Schema::First => 1,
            Schema::Second => 2,
            Schema::Third => 3,
        }
    }

    pub fn has_cash_move_table(self) -> bool
        ensures { result ≡ (abstract_schema self).has_cash_move_table }
    {
        match self {
            Schema::First => false,
            Schema::Second | Schema::Third => true,
        }
    }

    pub fn has_settle_rule_table(self) -> bool
        ensures { result ≡ (abstract_schema self).has_settle_rule_table }
    {
        match self {
            Schema::First | Schema::Second => false,
            Schema::Third => true,
        }
    }

    /// Returns the greatest quantity of a trade, a request or a bound of a band.
    pub fn greatest_qty(self) -> u32
        ensures { result ≡ (abstract_schema self).greatest_qty }
    {
        match self {
            Schema::First | Schema::Second => 999_999,
            Schema::Third => Qty::GREATEST,
        }
    }

    /// Returns the greatest number of shares of a security that an account may hold or be short of.
    pub fn greatest_summary_quantity(self) -> u64
        ensures { result ≡ (abstract_schema self).greatest_summary_quantity }
    {
        match self {
            Schema::First | Schema::Second => 999_999_999,
            Schema::Third => 9_999_999_999,
        }
    }
}
