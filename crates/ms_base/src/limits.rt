//! The limits of the program. All are this project's own.

/// How many things a join may have: its atoms and the bodies of its rules.
pub const MOST_THINGS: usize = 4_000_000;

/// How many copies of rules and of elements a grounding may have together.
pub const MOST_COPIES: usize = 1_000_000;

/// How many symbols an atom may have.
pub const MOST_SYMBOLS: u64 = 2_000;

/// How many copies the pools of a statement may make.
pub const MOST_CHOICES: u32 = 10_000;

/// Up to where the copies that pools make are counted: there it is only known that they are too many.
pub const MOST_COUNTED: u32 = 10_001;

/// The greatest height of a term.
pub const MOST_HEIGHT: u8 = 200;

/// How many answers may be asked for.
pub const MOST_ANSWERS: u64 = 1_000_000;

/// How many conflicts a solve may have where nothing is said.
pub const USUAL_LIMIT: u64 = 1_000_000;

/// How many conflicts a solve may be allowed.
pub const GREATEST_LIMIT: u64 = 1 << 40;

/// How many learned nogoods are kept from one solve to the next.
pub const MOST_KEPT: usize = 200_000;

/// How many bytes an input may have.
pub const MOST_BYTES: usize = 1 << 30;
