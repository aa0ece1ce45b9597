//! The refusals of commands and queries, and the limits that a refusal names.

ghost use Rattle.std.specs.Prelude.{◌≡◌, Some};
ghost use Rattle.brk_money.specs.Kinds.{limit_word, refusal_number, refusal_text};

use crate::fault::Fault;
use crate::status::Status;
use std::fmt;

/// The result of a call that may be refused: the value or the refusal, or the error `E` if the call
/// failed.
pub type Planned<T, E = Fault> = Result<Result<T, Refusal>, E>;

/// A number or a sum that would leave its range.
#[derive(Clone, Copy, Debug, PartialEq, Eq)]
pub enum Limit {
    /// The absolute value of the net quantity of an account in a security (HS_QTY), at most
    /// 9,999,999,999 shares.
    Summary,
    /// The absolute value of an account's balance (CA_BAL), at most `Cents::GREATEST`.
    Balance,
    /// A broker's commission total (B_COMM_TOTAL), at most `Cents::GREATEST`.
    Broker,
    /// The volume of a security (LT_VOL), at most 10^17 shares.
    Volume,
    /// The number of trades, at most `Id::GREATEST`.
    Trades,
    /// The number of accounts of a customer, at most 10.
    Accounts,
    /// The number of deposits and withdrawals, at most `Id::GREATEST`.
    Moves,
}

impl Limit {
    /// Returns the word for the limit in the fields of a refusal.
    pub fn output_word(self) -> &'static str
        ensures { result.now ≡ limit_word self }
    {
        match self {
            Limit::Summary => "summary",
            Limit::Balance => "balance",
            Limit::Broker => "broker",
            Limit::Volume => "volume",
            Limit::Trades => "trades",
            Limit::Accounts => "accounts",
            Limit::Moves => "moves",
        }
    }
}

/// The reason why a command or a query is refused. A refusal changes nothing.
#[derive(Clone, Copy, Debug, PartialEq, Eq)]
pub enum Refusal {
    /// A field is malformed, the kind of a row, a view or an explanation is unknown, there are too
    /// few or too many fields, an id occurs twice in a list, the last day of a statement is before
    /// the first, or a batch ends after the row without an end record.
    BadText,
    /// A quantity is malformed or out of range, or a band's lower bound is above its upper bound.
    BadQty,
    /// A price is malformed or out of range, or does not fit the type of an order.
    BadPrice,
    /// The type of trade is unknown.
    BadType,
    /// A list has more than 20 entries.
    TooMany,
    /// Another row was accepted under the key before.
    KeyReused,
    /// The account does not exist.
    NoAccount,
    /// The customer does not exist.
    NoCustomer,
    /// The broker does not exist.
    NoBroker,
    /// The security does not exist.
    NoSecurity,
    /// The trade does not exist.
    NoTrade,
    /// The tax rate does not exist.
    NoTax,
    /// The trade has this status, which the command does not allow.
    WrongStatus(Status),
    /// The executor is neither the customer nor permitted to order for the account.
    NotPermitted,
    /// The record or a customer with the tax id already exists, or the first day of one-day
    /// settlement is already set.
    Exists,
    /// The band shares a quantity with another band of its tier, trade type and exchange.
    Overlap,
    /// The customer's tax rates would total more than `TaxRate::GREATEST`.
    TaxSum,
    /// No charge exists for the type of trade and the tier.
    NoCharge,
    /// No commission band of the tier, the trade type and the exchange contains the quantity.
    NoRate,
    /// A number or a sum would leave its range.
    Range(Limit),
    /// No stamp after the last one is left, or a due day would be after 9999-12-31.
    ClockEnd,
    /// The first day of one-day settlement is not later than the UTC day of the command's stamp.
    TooEarly,
}

impl Refusal {
    /// Returns the number that is printed for the refusal, 1 to 22.
    pub fn number(self) -> u8
        ensures { result ≡ refusal_number self }
    {
        match self {
            Refusal::NoAccount => 1,
            Refusal::NoCustomer => 2,
            Refusal::NoBroker => 3,
            Refusal::NoSecurity => 4,
            Refusal::NoTrade => 5,
            Refusal::NotPermitted => 6,
            Refusal::BadType => 7,
            Refusal::BadQty => 8,
            Refusal::BadPrice => 9,
            Refusal::NoCharge => 10,
            Refusal::NoRate => 11,
            Refusal::NoTax => 12,
            Refusal::WrongStatus(_) => 13,
            Refusal::Range(_) => 14,
            Refusal::Exists => 15,
            Refusal::Overlap => 16,
            Refusal::TaxSum => 17,
            Refusal::BadText => 18,
            Refusal::KeyReused => 19,
            Refusal::TooMany => 20,
            Refusal::ClockEnd => 21,
            Refusal::TooEarly => 22,
        }
    }
}

/// Writes the fields that a line prints for a refusal, separated by commas: its number, then the
/// status code or the word of the limit, if it has one.
impl fmt::Display for Refusal {
    ghost output = { λ refusal. Some (refusal_text refusal) };

    fn fmt<W: fmt::Write>(&self, f: &mut fmt::Formatter<W>) -> fmt::Result {
        let number = self.number();
        match self {
            Refusal::WrongStatus(status) => write!(f, "{number},{}", status.code()),
            Refusal::Range(limit) => write!(f, "{number},{}", limit.output_word()),
            _ => write!(f, "{number}"),
        }
    }
}
