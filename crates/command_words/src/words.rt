//! The words after the program's name.
ghost use Rattle.std.specs.Prelude.{◌≡◌, [], ◌∷◌, ◌++◌, OnOk, OnErr, map, string_bytes};

use std::alloc::{AllocError, Global};
use std::marker::Model;

/// A list of words, in order.
#[derive(Debug, Drop)]
pub struct Words(Vec<String>);

impl Model for Words {
    ghost use Rattle.std.specs.Prelude.{List, ℕ, map, string_bytes};

    ghost Value = { List (List ℕ) };

    ghost view = { λ words. map string_bytes words.0.items };
}

impl Words {
    /// No words. Takes no memory.
    pub fn make(alloc: Global) -> Words
        ensures { result ≡ [] }
    {
        Words(Vec::new(alloc))
    }

    /// Appends a word.
    pub fn push(&mut self, word: &str) -> Result<(), AllocError>
        ensures ok { OnOk result (self.new ≡ self.old ++ word.now ∷ []) }
        ensures err { OnErr result (self.new ≡ self.old) }
    {
        let text = String::from_str(*self.0.allocator(), word)?;
        self.0.push(text)?;
        Ok(())
    }

    /// The words as texts.
    pub(crate) fn as_slice(&self) -> &[String]
        ensures { map string_bytes result.now ≡ self.now }
    {
        self.0.as_slice()
    }
}
