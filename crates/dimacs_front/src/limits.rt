//! The limits of a text.

/// The most bytes of a text.
pub const MOST_BYTES: usize = 1_073_741_824;

/// The most variables that a header may name, and the largest variable that a show line, an under
/// line, a cube line, an open line or a met line may hold.
pub const MOST_VARIABLES: u32 = 1_000_000;

/// The most clauses that a header may name, and that a text may have.
pub const MOST_CLAUSES: u32 = 4_000_000;

/// The most literals of all clauses together, as they are written.
pub const MOST_LITERALS: u32 = 16_000_000;

/// The most variables that may be shown.
pub const MOST_SHOWN: usize = 8_192;
