//! The command of a list of words.
ghost use Rattle.std.specs.Prelude.{◌≡◌, ◌↔◌, Err, IfOk, IfSome, IsSome, None, Some};
ghost use Rattle.std.specs.Prelude.{is_some, map, string_bytes};
ghost use Rattle.command_words.specs.Commands.{HasRanges, IsInRange, check_by, command_of};
ghost use Rattle.command_words.specs.Commands.{options_of};
ghost use Rattle.command_words.specs.Options.{drill_of, enumerate_of};

use crate::parsing::{parse_check, parse_drill, parse_enumerate};
use crate::reading::Reading;
use crate::{Words, WordsFault};
use std::alloc::Global;

/// What the program is to do.
#[derive(Clone, Copy, Debug, PartialEq, Eq)]
pub enum Command {
    /// To list the models of a formula.
    Enumerate {
        /// How many workers there are, 1 to 16.
        workers: u32,
        /// After how many leaves the run stops, 1 to 2^62.
        budget: Option<u64>,
    },
    /// To check the cubes of a met text.
    Check,
    /// To list the models of the drill of a size, and to write what all of them have in common.
    Drill {
        /// The size, 1 to 48.
        size: u32,
        /// How many workers there are, 1 to 16.
        workers: u32,
    },
}

/// The command that the words make. Words that make none are refused before any memory is asked
/// for, so `OutOfMemory` says that they make one.
pub fn read_words(alloc: Global, words: &Words) -> Result<Command, WordsFault>
    ensures command { IfOk result (λ c. command_of words.now ≡ Some c) }
    ensures refused { (result ≡ Err WordsFault.Refused) ↔ (command_of words.now ≡ None) }
    ensures ranges { IfOk result IsInRange }
{
    let Some((first, options)) = words.as_slice().split_first() else {
        return Err(WordsFault::Refused);
    };
    if first.as_str() == "enumerate" {
        return read_enumerate(alloc, options);
    }
    if first.as_str() == "check" {
        return read_check(alloc, options);
    }
    if first.as_str() == "drill" {
        return read_drill(alloc, options);
    }
    Err(WordsFault::Refused)
}

/// The command to enumerate, by the words behind its name.
fn read_enumerate(alloc: Global, words: &[String]) -> Result<Command, WordsFault>
    ensures command { IfOk result (λ c. enumerate_of (map string_bytes words.now) ≡ Some c) }
    ensures refused { (result ≡ Err WordsFault.Refused)
        ↔ (enumerate_of (map string_bytes words.now) ≡ None) }
    ensures ranges { IfOk result IsInRange }
{
    if !makes_enumerate(words) {
        return Err(WordsFault::Refused);
    }
    parse_enumerate(alloc, words)
}

/// The command to check, by the words behind its name.
fn read_check(alloc: Global, words: &[String]) -> Result<Command, WordsFault>
    ensures command { IfOk result (λ c. check_by (map string_bytes words.now) ≡ Some c) }
    ensures refused { (result ≡ Err WordsFault.Refused)
        ↔ (check_by (map string_bytes words.now) ≡ None) }
    ensures ranges { IfOk result IsInRange }
{
    if !words.is_empty() {
        return Err(WordsFault::Refused);
    }
    parse_check(alloc, words)
}

/// The command to drill, by the words behind its name.
fn read_drill(alloc: Global, words: &[String]) -> Result<Command, WordsFault>
    ensures command { IfOk result (λ c. drill_of (map string_bytes words.now) ≡ Some c) }
    ensures refused { (result ≡ Err WordsFault.Refused)
        ↔ (drill_of (map string_bytes words.now) ≡ None) }
    ensures ranges { IfOk result IsInRange }
{
    if !makes_drill(words) {
        return Err(WordsFault::Refused);
    }
    parse_drill(alloc, words)
}

/// What the options say. None where one of them is none.
fn read_options(words: &[String]) -> Option<Reading>
    ensures options { result ≡ options_of (map string_bytes words.now) }
    ensures ranges { IfSome result HasRanges }
{
    let mut reading = Reading::nothing();
    for word in words {
        reading = reading.with_word(word.as_bytes())?;
    }
    Some(reading)
}

/// Whether a command to enumerate has these words behind its name: the last option has its number,
/// and there is no size.
fn makes_enumerate(words: &[String]) -> bool
    ensures { result ≡ is_some (enumerate_of (map string_bytes words.now)) }
{
    match read_options(words) {
        Some(reading) => reading.waiting.is_none() && reading.size.is_none(),
        None => false,
    }
}

/// Whether a command to drill has these words behind its name: the last option has its number, and
/// there is a size and no budget.
fn makes_drill(words: &[String]) -> bool
    ensures { result ≡ is_some (drill_of (map string_bytes words.now)) }
{
    match read_options(words) {
        Some(reading) => {
            reading.waiting.is_none() && reading.budget.is_none() && reading.size.is_some()
        }
        None => false,
    }
}
