//! How a run ended.
ghost use Rattle.std.specs.Prelude.{◌≡◌};
ghost use Rattle.base_kit.specs.Statuses.{code_of};

/// How a run ended (docs/ANSWERS.md).
#[derive(Clone, Copy, Debug, PartialEq, Eq, Hash)]
pub enum Status {
    /// The work was done; of a search, a best world was written.
    Done,
    /// No possible world meets the requirements.
    Impossible,
    /// The command line is not a command.
    Words,
    /// The query has a syntax error, or breaks a rule.
    Query,
    /// A table is refused, or a row has no value between its bounds.
    Tables,
    /// A limit on sizes is exceeded.
    Size,
    /// The node budget is used up, and the search is not over.
    Unfinished,
    /// A file is missing, too long or could not be read.
    Read,
    /// The answer was not written in full.
    Write,
    /// Out of memory.
    Memory,
    /// The answer to be checked is not valid.
    Rejected,
    /// The answer to be checked could not be parsed.
    Unreadable,
}

impl Status {
    /// The exit status of the process, 0 to 11 in the order of the variants.
    pub fn code(&self) -> u8
        ensures { result ≡ code_of self.now }
    {
        *self as u8
    }
}
