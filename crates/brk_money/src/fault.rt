//! The faults of calls, and the conditions of an audit, one of which a damaged database fails.

ghost use Rattle.std.specs.Prelude.{◌≡◌};
ghost use Rattle.brk_money.specs.Kinds.{condition_word, fault_number, fault_of_call};
ghost use Rattle.brk_money.specs.declared.fault.CallFault.TheVariants as call;
ghost use Rattle.brk_money.specs.declared.fault.Fault.TheVariants.{Memory, Store};

use std::alloc::{AllocError, AllocFailed};

/// A condition on the tables of a database. The variants are in the order in which the conditions
/// are checked.
#[derive(Clone, Copy, Debug, PartialEq, Eq)]
pub enum Condition {
    /// None of the desk's tables exists before they are created.
    NotEmpty,
    /// The tables exist with their columns.
    Schema,
    /// Each row passes the checks of formats, limits and references of its table, keys and tax ids
    /// are unique, trades are numbered from 1 without a gap, and bands do not overlap.
    Form,
    /// Each trade's status history is valid, and no two completions or movements have equal stamps.
    Status,
    /// The requests equal those of the pending trades.
    Requests,
    /// The lots equal those that the completed trades leave open.
    Lots,
    /// The history of lots equals that of the completed trades.
    History,
    /// Each summary equals the shares bought less the shares sold.
    Summary,
    /// Each broker's trade count equals the number of its completed trades.
    Count,
    /// Each broker's commission total equals the sum of the commissions of its completed trades.
    Commission,
    /// The settlements equal those of the completed trades.
    Settlement,
    /// The cash rows equal those of the completed cash trades and the movements.
    Cash,
    /// Each balance equals the opening balance plus the account's cash rows.
    Balance,
}

impl Condition {
    /// Returns the word for the condition in output, such as `cash`.
    pub fn output_word(self) -> &'static str
        ensures { result.now ≡ condition_word self }
    {
        match self {
            Condition::NotEmpty => "notempty",
            Condition::Schema => "schema",
            Condition::Form => "form",
            Condition::Status => "status",
            Condition::Requests => "requests",
            Condition::Lots => "lots",
            Condition::History => "history",
            Condition::Summary => "summary",
            Condition::Count => "count",
            Condition::Commission => "commission",
            Condition::Settlement => "settlement",
            Condition::Cash => "cash",
            Condition::Balance => "balance",
        }
    }
}

/// The reason why a call failed. A fault says nothing about the books.
#[derive(Clone, Copy, Debug, PartialEq, Eq)]
pub enum Fault {
    /// An allocation of the desk's own code was refused.
    Memory,
    /// The database or its disk failed, its rows are malformed or contradict each other, or the
    /// `sqlite` crate, or the decoding of the row of a read of one row, ran out of memory.
    Store,
    /// The database fails this condition of a desk's tables; returned only when tables are created,
    /// adopted, upgraded or audited.
    Damaged(Condition),
}

impl Fault {
    /// Returns the number of the fault in output, 90 to 92.
    pub fn number(self) -> u8
        ensures { result ≡ fault_number self }
    {
        match self {
            Fault::Memory => 90,
            Fault::Store => 91,
            Fault::Damaged(_) => 92,
        }
    }
}

/// The reason why a call failed that only an allocation or the database can fail.
#[derive(Clone, Copy, Debug, PartialEq, Eq)]
pub enum CallFault {
    /// `Fault::Memory`.
    Memory,
    /// `Fault::Store`.
    Store,
}

/// The error of a call that only the database can fail: `Fault::Store`.
#[derive(Clone, Copy, Debug, PartialEq, Eq)]
pub struct StoreFailed;

impl From<AllocError> for Fault {
    ghost from_gives = { λ _ fault. fault ≡ Memory };

    fn from(_error: AllocError) -> Fault {
        Fault::Memory
    }
}

impl<T: Drop> From<AllocFailed<T>> for Fault {
    ghost from_gives = { λ _ fault. fault ≡ Memory };

    fn from(_error: AllocFailed<T>) -> Fault {
        Fault::Memory
    }
}

impl From<StoreFailed> for Fault {
    ghost from_gives = { λ _ fault. fault ≡ Store };

    fn from(_error: StoreFailed) -> Fault {
        Fault::Store
    }
}

impl From<CallFault> for Fault {
    ghost from_gives = { λ call fault. fault ≡ fault_of_call call };

    fn from(fault: CallFault) -> Fault {
        match fault {
            CallFault::Memory => Fault::Memory,
            CallFault::Store => Fault::Store,
        }
    }
}

impl From<AllocError> for CallFault {
    ghost from_gives = { λ _ fault. fault ≡ call.Memory };

    fn from(_error: AllocError) -> CallFault {
        CallFault::Memory
    }
}

impl<T: Drop> From<AllocFailed<T>> for CallFault {
    ghost from_gives = { λ _ fault. fault ≡ call.Memory };

    fn from(_error: AllocFailed<T>) -> CallFault {
        CallFault::Memory
    }
}

impl From<StoreFailed> for CallFault {
    ghost from_gives = { λ _ fault. fault ≡ call.Store };

    fn from(_error: StoreFailed) -> CallFault {
        CallFault::Store
    }
}
