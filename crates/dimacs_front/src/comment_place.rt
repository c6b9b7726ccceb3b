//! The words of a comment line.
ghost use Rattle.std.specs.Prelude.{◌≡◌};
ghost use Rattle.dimacs_front.specs.MachineComment.{comment_begun, comment_after};

use dimacs_tokens::Seen;

/// The place in a comment line: by its words so far, which comment it may be.
#[derive(Clone, Copy)]
pub enum CommentPlace {
    /// Behind the word `c`.
    Word,
    /// Behind the words `c p`.
    Parted,
    /// Behind the words `c allsat` in the first line.
    Named,
    /// Behind the words of a show line.
    Show,
    /// Behind the words of an under line.
    Under,
    /// Behind the words of a cube line.
    Cube,
    /// Behind the words of an open line.
    Open,
    /// Behind the words of an end line.
    End,
    /// Behind the words of a met line.
    MetLine,
    /// Behind the words of the first line of a saved text.
    Saved,
    /// Behind the words of the first line of a met text.
    Met,
    /// In a comment of which nothing more is read.
    Passed,
}

impl CommentPlace {
    /// The place behind the line's first token.
    pub fn first(token: &Seen) -> CommentPlace
        ensures { result ≡ comment_begun token.now }
    {
        if token.is_word(b"c") {
            CommentPlace::Word
        } else {
            CommentPlace::Passed
        }
    }

    /// The place behind one more token.
    pub fn after(self, line: u64, token: &Seen) -> CommentPlace
        ensures { result ≡ comment_after self line token.now }
    {
        match self {
            CommentPlace::Word if token.is_word(b"p") => CommentPlace::Parted,
            CommentPlace::Word if line == 1 && token.is_word(b"allsat") => CommentPlace::Named,
            CommentPlace::Parted if token.is_word(b"show") => CommentPlace::Show,
            CommentPlace::Parted if token.is_word(b"under") => CommentPlace::Under,
            CommentPlace::Parted if token.is_word(b"cube") => CommentPlace::Cube,
            CommentPlace::Parted if token.is_word(b"open") => CommentPlace::Open,
            CommentPlace::Parted if token.is_word(b"end") => CommentPlace::End,
            CommentPlace::Parted if token.is_word(b"met") => CommentPlace::MetLine,
            CommentPlace::Named if token.is_word(b"met") => CommentPlace::Met,
            CommentPlace::Named if token.is_word(b"saved") => CommentPlace::Saved,
            _ => CommentPlace::Passed,
        }
    }
}
