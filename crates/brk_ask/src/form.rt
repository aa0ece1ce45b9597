/// The format in which a view is written.
#[derive(Clone, Copy, Debug, PartialEq, Eq)]
pub struct Form {
    /// If true, one line of JSON, `{"view":[["TEXT",..],..]}`; otherwise CSV rows, one for each
    /// record.
    pub json: bool,
    /// If true, and if the view is `customer`, `taxid`, `submitted`, `estimate` or `volume`, whose
    /// records all have the same fields, the first record is the names of the fields.
    pub heads: bool,
}
