ghost use Rattle.std.specs.Prelude.{◌≡◌, Bool, MatchOption, bytes_eq};
ghost use Rattle.std.specs.List.{list_any};
ghost use Rattle.brk_view_rows.specs.ViewNames.{text_of_view_name, texts_of_view_names};

/// The name of a view.
#[derive(Clone, Copy, Debug, PartialEq, Eq)]
pub enum ViewName {
    /// `submitted`: the submitted trades.
    Submitted,
    /// `estimate`: the estimate of an order.
    Estimate,
    /// `customer`: the balances and market values of a customer's accounts, by the customer's id.
    Customer,
    /// `taxid`: the balances and market values of a customer's accounts, by the customer's tax id.
    TaxId,
    /// `recent`: the last trades of an account and their statuses.
    Recent,
    /// `status`: the names of an account's customer and broker, and its last trades.
    Status,
    /// `trades`: trades by their ids.
    Trades,
    /// `accounttrades`: the first 20 trades of an account between two stamps, both included.
    AccountTrades,
    /// `symboltrades`: the first 20 trades of a symbol between two stamps, both included.
    SymbolTrades,
    /// `lots`: the changes of the lots that a trade touched.
    Lots,
    /// `volume`: the volumes of brokers in a sector.
    Volume,
}

impl ViewName {
    /// Returns `None` if no view has the name `text`.
    pub fn from_text(text: &str) -> Option<ViewName>
        ensures { MatchOption result
            (list_any (λ name. bytes_eq name text.now) texts_of_view_names ≡ Bool.false)
            (λ name. text_of_view_name name ≡ text.now) }
    {
        match text {
            "submitted" => Some(ViewName::Submitted),
            "estimate" => Some(ViewName::Estimate),
            "customer" => Some(ViewName::Customer),
            "taxid" => Some(ViewName::TaxId),
            "recent" => Some(ViewName::Recent),
            "status" => Some(ViewName::Status),
            "trades" => Some(ViewName::Trades),
            "accounttrades" => Some(ViewName::AccountTrades),
            "symboltrades" => Some(ViewName::SymbolTrades),
            "lots" => Some(ViewName::Lots),
            "volume" => Some(ViewName::Volume),
            _ => None,
        }
    }

    pub fn as_str(self) -> &'static str
        ensures { result.now ≡ text_of_view_name self }
    {
        match self {
            ViewName::Submitted => "submitted",
            ViewName::Estimate => "estimate",
            ViewName::Customer => "customer",
            ViewName::TaxId => "taxid",
            ViewName::Recent => "recent",
            ViewName::Status => "status",
            ViewName::Trades => "trades",
            ViewName::AccountTrades => "accounttrades",
            ViewName::SymbolTrades => "symboltrades",
            ViewName::Lots => "lots",
            ViewName::Volume => "volume",
        }
    }
}
