//! What a text gives.
use checkpoint::Saved;
use cube_check::Met;
use sat_terms::{Items, Subject};

/// The input that a text says.
#[derive(Debug, Drop)]
pub struct Input {
    /// The formula as it is written, the shown variables and the given literals.
    pub subject: Subject,
    /// Of a saved text, the cubes and the prefixes in the order of their lines.
    pub saved: Option<Saved>,
    /// Of a met text, the cubes with their hidden literals, in the order of their lines.
    pub met: Option<Items<Met>>,
}
