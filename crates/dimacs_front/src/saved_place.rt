//! A line that a saved text or a met text has of its own, token by token.
use crate::saved_lines::SavedList;

/// A list of literals that stands open in such a line.
#[derive(Clone, Copy)]
pub enum OpenList {
    /// That of a cube line or of an open line.
    Line(SavedList),
    /// The first list of a met line.
    Shown,
    /// The second list of a met line.
    Hidden,
}

/// The place in such a line.
#[derive(Clone, Copy)]
pub enum SavedPlace {
    /// Behind the words of the first line of a saved text.
    First,
    /// Behind the words of the first line of a met text.
    MetFirst,
    /// Behind the words of a line with a list, and literals.
    Listed(OpenList),
    /// Behind all that the line may hold.
    Complete,
    /// Behind the words of the end line.
    End,
}
