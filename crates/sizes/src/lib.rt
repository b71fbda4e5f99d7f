// How large the stores are. A memory figure is answered with its entries or refused by name, and never bent to a legal one.
#![tactic(auto)]

ghost use Rattle.std.specs.Prelude.{◌≡◌, ℕ, ◌≤◌};
ghost use Rattle.std.proofs.Common.{refl};
ghost use native.Mathlib.Nat.{le_refl};
ghost use borrow.Author.Tests.{ltb-false};
ghost use Rattle.sizes.specs.Sizes.{need, setup_for, entries_for, sizing_entries, size_error_number, setup_error_number};

use refusal::Refusal;

pub mod refusal;
pub mod slot;

pub const LARGEST_LIMIT: u32 = 1_048_576;

pub const RESERVED_WORDS: usize = 1024;

pub const HIGHEST_HOP: u32 = 65_535;

const SMALLEST_FIGURE: u64 = 4_128;

const LARGEST_FIGURE: u64 = 33_558_559;

const RESERVED_BYTES: u64 = 4_096;

const BYTES_AN_ENTRY: u64 = 32;

// ---- the entries for a memory figure

#[derive(Clone, Copy, Debug, PartialEq, Eq)]
pub enum SizeError {
    TooSmall,
    TooLarge,
}

impl Refusal for SizeError {
    ghost number = { size_error_number };

    fn number(self) -> u32 {
        match self {
            SizeError::TooSmall => 5,
            SizeError::TooLarge => 6,
        }
    }
}

// The entries that a cache of so many bytes holds.
pub fn entries_for(bytes: u64) -> Result<u32, SizeError>
    ensures { result ≡ entries_for bytes }
{
    if bytes < SMALLEST_FIGURE {
        return Err(SizeError::TooSmall);
    }
    if LARGEST_FIGURE < bytes {
        return Err(SizeError::TooLarge);
    }
    Ok(((bytes - RESERVED_BYTES) / BYTES_AN_ENTRY) as u32)
}

// The entries of an answer, 0 where it is a refusal.
pub fn sizing_entries(answer: Result<u32, SizeError>) -> u32
    ensures { result ≡ sizing_entries answer }
{
    answer.unwrap_or(0)
}

// ---- the stores

// How many words a store needs for each route or entry of its limit.
pub trait Store {
    ghost WORDS_EACH: { ℕ };

    const WORDS_EACH: usize;

    // So that no need of a legal limit passes the largest size.
    ghost few: { WORDS_EACH ≤ 16 };
}

pub struct Table;

pub struct Cache;

impl Store for Table {
    ghost WORDS_EACH = { 16 };

    const WORDS_EACH: usize = 16;

    ghost few = { le_refl 16 };
}

impl Store for Cache {
    ghost WORDS_EACH = { 8 };

    const WORDS_EACH: usize = 8;

    ghost few = { ltb-false 16 8 refl };
}

#[derive(Clone, Copy, Debug, PartialEq, Eq)]
pub enum SetupError {
    ShortStore,
    BadLimit,
}

impl Refusal for SetupError {
    ghost number = { setup_error_number };

    fn number(self) -> u32 {
        match self {
            SetupError::ShortStore => 7,
            SetupError::BadLimit => 8,
        }
    }
}

// What set-up answers before it writes a word: a store of so many words, and a limit.
pub fn setup<S: Store>(words: usize, limit: u32) -> Result<(), SetupError>
    ensures { result ≡ setup_for (need S.WORDS_EACH) words limit }
{
    if limit == 0 {
        return Err(SetupError::BadLimit);
    }
    if LARGEST_LIMIT < limit {
        return Err(SetupError::BadLimit);
    }
    if words < RESERVED_WORDS + S::WORDS_EACH * (limit as usize) {
        return Err(SetupError::ShortStore);
    }
    Ok(())
}
