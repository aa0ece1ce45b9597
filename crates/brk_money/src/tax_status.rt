ghost use Rattle.std.specs.Prelude.{◌≡◌};
ghost use Rattle.brk_money.specs.Kinds.{tax_status_number, tax_status_with_number};

/// The tax status of an account: how its gains are taxed (CA_TAX_ST).
#[derive(Clone, Copy, Debug, PartialEq, Eq)]
pub enum TaxStatus {
    /// No tax is recorded.
    Untaxed,
    /// The tax is recorded and withheld from the settlement.
    Withheld,
    /// The tax is recorded and not withheld.
    Reported,
}

impl TaxStatus {
    /// Returns the number of the status in tables and rows, 0 to 2.
    pub fn number(self) -> u8
        ensures { result ≡ tax_status_number self }
    {
        match self {
            TaxStatus::Untaxed => 0,
            TaxStatus::Withheld => 1,
            TaxStatus::Reported => 2,
        }
    }

    pub fn from_number(number: u64) -> Option<TaxStatus>
        ensures { result ≡ tax_status_with_number number }
    {
        match number {
            0 => Some(TaxStatus::Untaxed),
            1 => Some(TaxStatus::Withheld),
            2 => Some(TaxStatus::Reported),
            _ => None,
        }
    }
}
