ghost use Rattle.std.specs.Prelude.{◌≡◌};
ghost use Rattle.brk_ref.specs.Rows.{cash_type_text};

/// The settlement text of a trade (SE_CASH_TYPE). A trade settles in cash or on margin, and each
/// has two texts, which a text update exchanges.
#[derive(Clone, Copy, PartialEq, Eq)]
pub enum CashType {
    /// In cash: the text that a completion records.
    CashAccount,
    /// In cash: the other text.
    Cash,
    /// On margin: the text that a completion records.
    Margin,
    /// On margin: the other text.
    MarginAccount,
}

impl CashType {
    /// Returns the text that SE_CASH_TYPE stores and views show, such as `Cash Account`.
    pub fn text(self) -> &'static str
        ensures { result.now ≡ cash_type_text self }
    {
        match self {
            CashType::CashAccount => "Cash Account",
            CashType::Cash => "Cash",
            CashType::Margin => "Margin",
            CashType::MarginAccount => "Margin Account",
        }
    }
}
