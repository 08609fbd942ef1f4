//! The words that a query is read from, and how reading stops.

use base_kit::{List, Memory, Place};
use std::alloc::AllocError;
use tiql_lex::TokenKind;

/// A token with its bytes.
#[derive(Debug, Drop)]
pub struct Seen {
    /// What it is.
    pub kind: TokenKind,
    /// Its bytes.
    pub text: List<u8>,
    /// The place of its first byte.
    pub place: Place,
}

/// What is taken of the values of an expression.
#[derive(Clone, Copy, Debug)]
pub enum Aggregate {
    /// Their sum.
    Sum,
    /// The least of them.
    Min,
    /// The greatest of them.
    Max,
}

/// Why reading stopped.
#[derive(Clone, Copy, Debug)]
pub enum Stop {
    /// The first wrong word is the one from which on so many words are left.
    Wrong(usize),
    /// Out of memory.
    Memory,
}

/// What was read, and the words behind it.
pub type Reading<'a, T> = Result<(T, &'a [Seen]), Stop>;

impl From<Memory> for Stop {
    ghost use Rattle.std.specs.Prelude.{◌≡◌};
    ghost use Rattle.tiql_read.specs.declared.word.Stop.{Stop};

    ghost from_gives = { λ _ stop. stop ≡ Stop.Memory };

    fn from(_fault: Memory) -> Stop {
        Stop::Memory
    }
}

impl From<AllocError> for Stop {
    ghost use Rattle.std.specs.Prelude.{◌≡◌};
    ghost use Rattle.tiql_read.specs.declared.word.Stop.{Stop};

    ghost from_gives = { λ _ stop. stop ≡ Stop.Memory };

    fn from(_fault: AllocError) -> Stop {
        Stop::Memory
    }
}
