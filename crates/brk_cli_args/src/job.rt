use brk_money::{Day, Id, Stamp};

/// The job that the command-line arguments request.
#[derive(Drop)]
pub enum Job {
    /// Executes a batch from standard input on the desk in the file at `db`, or on a new desk in
    /// memory. Each clock reading is `at`, or a reading of the machine's clock if `at` is `None`.
    /// Creates no desk in the file if `existing` is true.
    Batch {
        db: Option<String>,
        existing: bool,
        at: Option<Stamp>,
    },
    /// Prints the statement of an account of the desk in the file at `db`, from the day `from` to
    /// the day `to`, both included.
    Statement {
        db: String,
        account: Id,
        from: Day,
        to: Day,
    },
    /// Prints the statements of the accounts of the desk in the file at `db`, one after the other,
    /// from the day `from` to the day `to`, both included: of all accounts, or of those of
    /// `customer`.
    Statements {
        db: String,
        from: Day,
        to: Day,
        customer: Option<Id>,
    },
    /// Audits the desk in the file at `db`.
    Audit {
        db: String,
    },
    /// Prints the view with this name and these arguments, of the desk in the file at `db`: as JSON
    /// or as CSV rows, with or without a first record of field names.
    Ask {
        db: String,
        json: bool,
        heads: bool,
        view: String,
        arguments: Vec<String>,
    },
    /// Prints the explanation that the words request, of the desk in the file at `db`.
    Explain {
        db: String,
        words: Vec<String>,
    },
    /// Serves the given number of streams of HTTP requests, in sequence, at a port of this machine,
    /// on the desk in the file at `db` or on a new desk in memory. Each clock reading is `at`, or a
    /// reading of the machine's clock if `at` is `None`. Creates no desk in the file if `existing` is
    /// true.
    Serve {
        port: u16,
        db: Option<String>,
        existing: bool,
        at: Option<Stamp>,
        streams: u32,
    },
}
