//! The book of a search: which cubes are published, which prefixes are pending, and by whom each of
//! these is held. Its journal lists the events that made it so.
//!
//! The events are a machine over plain lists, in `specs/Machine.antt`. Each call of the book is one
//! event or none, and the laws say that no event loses or doubles a projected assignment.
#![tactic(auto)]

mod answers;
mod arranged;
mod book;
mod event;
mod found_cubes;
mod journalled;
pub mod laws;
mod left_prefixes;
mod pages;
mod shelves;
mod slot;
mod slots;

pub use answers::{Progress, Reported, Taken};
pub use arranged::ArrangedBook;
pub use book::Book;
pub use event::Event;

#[cfg(test)]
mod tests;
