ghost use Rattle.std.specs.Prelude.{◌≡◌, ◌+◌, ◌<◌, ◌^◌};
ghost use Rattle.brk_model.specs.Commands.{Reply};
ghost use Rattle.brk_ref.specs.Answers.{abstract_answer};
ghost use Rattle.brk_import_engine.specs.Counts.{counts_with_answer};

use brk_ref::Answer;

/// The number of answered rows of a batch, by kind of answer.
#[derive(Clone, Copy, Debug, PartialEq, Eq)]
pub struct Counts {
    /// The number of rows that were accepted.
    pub ok: u64,
    /// The number of rows that were accepted before, under the same keys.
    pub again: u64,
    /// The number of rows that were refused.
    pub no: u64,
}

impl Counts {
    // The counts before the first row.
    pub(crate) const NONE: Counts = Counts {
        ok: 0,
        again: 0,
        no: 0,
    };

    pub(crate) fn with_answer<R>(self, answer: &Answer<R>) -> Counts
        requires ok { self.ok + 1 < 2 ^ 64 }
        requires again { self.again + 1 < 2 ^ 64 }
        requires no { self.no + 1 < 2 ^ 64 }
        ensures { (reply : R → Reply) → result ≡ counts_with_answer self (abstract_answer reply answer.now) }
    {
        let mut counts = self;
        match answer {
            Answer::Done(_) => counts.ok += 1,
            Answer::Again(_) => counts.again += 1,
            Answer::Refused(_) => counts.no += 1,
        }
        counts
    }
}
