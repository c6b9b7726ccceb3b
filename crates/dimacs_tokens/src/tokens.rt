//! What a reader keeps of a token while its bytes come: its first eight bytes, and what it says as
//! a number. So a token of any length costs no memory. No word of a DIMACS text has eight bytes.
ghost use Rattle.std.specs.Prelude.{◌≡◌, ℕ, ◌<◌, List, [], ◌∷◌, ◌++◌, length};
ghost use Rattle.std.specs.Str.{bytes_eq};
ghost use Rattle.dimacs_tokens.specs.Seen.{seen_token, more_seen, is_empty, begins_with};

use crate::Numeral;
use arrayvec::ArrayVec;
use std::marker::Model;

/// What is seen of a token.
#[derive(Drop)]
pub struct Seen {
    head: ArrayVec<u8, 8>,
    number: Numeral,
}

impl Model for Seen {
    ghost use Rattle.std.specs.Prelude.{◌≤◌, length};
    ghost use Rattle.dimacs_tokens.specs.Seen.{SeenView};

    ghost Value = { SeenView };

    ghost view = { λ s. record { head = s.head.items; number = s.number } };

    ghost invariant = { λ s. length s.head.items ≤ 8 };
}

impl Seen {
    /// No byte is seen.
    #[tactic(auto, unfolding(crate::specs::Seen::seen_token, crate::specs::Numbers::numeral))]
    pub fn make() -> Self
        ensures { result ≡ seen_token [] }
    {
        Seen {
            head: ArrayVec::new(),
            number: Numeral::Nothing,
        }
    }

    /// Begins the next token.
    #[tactic(auto, unfolding(crate::specs::Seen::seen_token, crate::specs::Numbers::numeral))]
    pub fn begin(&mut self)
        ensures { self.new ≡ seen_token [] }
    {
        self.head.clear();
        self.number = Numeral::Nothing;
    }

    /// Takes the token's next byte.
    pub fn push(&mut self, byte: u8)
        ensures step { self.new ≡ more_seen self.old byte }
        ensures meaning { (t : List ℕ) → self.old ≡ seen_token t →
            self.new ≡ seen_token (t ++ byte ∷ []) }
    {
        if !self.head.is_full() {
            self.head.push(byte);
        }
        self.number = self.number.with(byte);
    }

    /// Whether no byte is seen.
    pub fn is_empty(&self) -> bool
        ensures { result ≡ is_empty self.now }
    {
        self.head.is_empty()
    }

    /// Whether the token is this word.
    pub fn is_word(&self, word: &[u8]) -> bool
        requires { length word.now < 8 }
        ensures { result ≡ bytes_eq self.now.head word.now }
    {
        self.head.as_slice() == word
    }

    /// Whether the token's first byte is this one.
    pub fn begins_with(&self, byte: u8) -> bool
        ensures { result ≡ begins_with self.now byte }
    {
        match self.head.as_slice() {
            [first, ..] => *first == byte,
            [] => false,
        }
    }

    /// What the token says as a number.
    pub fn number(&self) -> Numeral
        ensures { result ≡ self.now.number }
    {
        self.number
    }
}
