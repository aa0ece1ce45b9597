//! The texts at the end of the help of each subcommand.

/// The text after the options in the help of `brk batch`.
pub const BATCH: &str = "Example:
  brk batch --db desk.db < examples/setting.csv";

/// The text after the options in the help of `brk statement`.
pub const STATEMENT: &str = "Example:
  brk statement --db desk.db --account 100 --from 2024-03-01 --to 2024-03-31";

/// The text after the options in the help of `brk statements`.
pub const STATEMENTS: &str = "Example:
  brk statements --db desk.db --from 2024-03-01 --to 2024-03-31 > statements.txt";

/// The text after the options in the help of `brk audit`.
pub const AUDIT: &str = "Example:
  brk audit --db desk.db";

/// The text after the options in the help of `brk serve`.
pub const SERVE: &str = "Example:
  brk serve --port 8123 --db desk.db --streams 1000";

/// The text after the options in the help of `brk ask`: the views with their arguments, and an
/// example.
pub const ASK: &str = "Views and their arguments:
  customer ID
  taxid TAXID
  recent ACCOUNT
  status ACCOUNT
  submitted
  estimate ACCOUNT TYPE SYMBOL QTY PRICE CASH END FIRST LAST TAXID
  trades ID ..
  accounttrades ACCOUNT FROM TO
  symboltrades SYMBOL FROM TO
  lots ACCOUNT FROM
  volume SECTOR NAME ..
Write -- before an argument that begins with a hyphen.

Example:
  brk ask --db desk.db --heads customer 10";

/// The text after the options in the help of `brk explain`.
pub const EXPLAIN: &str = "Example:
  brk explain --db desk.db trade 3
  brk explain --db desk.db holding 100 ABC";
