//! The words behind a command's name, as `clap` reads them.
ghost use Rattle.std.specs.Prelude.{◌≡◌, [], true, Some, IfOk, IfErr, IsSome, map, string_bytes};
ghost use Rattle.clap.specs.Words.{HasMatchesOf, app_of, takes};
ghost use Rattle.command_words.specs.Commands.{IsInRange};
ghost use Rattle.command_words.specs.Options.{drill_of, enumerate_of};

use crate::options::{check_options, drill_options, enumerate_options};
use crate::{Command, WordsFault};
use clap::ArgMatches;
use clap::error::ErrorKind;
use std::alloc::Global;

/// The command to enumerate, by the words behind its name, which make one.
pub(crate) fn parse_enumerate(alloc: Global, words: &[String]) -> Result<Command, WordsFault>
    requires { IsSome (enumerate_of (map string_bytes words.now)) }
    ensures command { IfOk result (λ c. enumerate_of (map string_bytes words.now) ≡ Some c) }
    ensures ranges { IfOk result IsInRange }
    ensures fault { IfErr result (λ fault. fault ≡ WordsFault.OutOfMemory) }
{
    let command = enumerate_options(alloc)?;
    let matches = parse(command, words)?;
    let workers = matches.get_one::<u32>("workers");
    let budget = matches.get_one::<u64>("budget");
    Ok(Command::Enumerate {
        workers: workers.unwrap_or(1),
        budget,
    })
}

/// The command to check, which has no words behind its name.
pub(crate) fn parse_check(alloc: Global, words: &[String]) -> Result<Command, WordsFault>
    requires { words.now ≡ [] }
    ensures command { IfOk result (λ c. c ≡ Command.Check) }
    ensures fault { IfErr result (λ fault. fault ≡ WordsFault.OutOfMemory) }
{
    let _matches = parse(check_options(alloc), words)?;
    Ok(Command::Check)
}

/// The command to drill, by the words behind its name, which make one.
pub(crate) fn parse_drill(alloc: Global, words: &[String]) -> Result<Command, WordsFault>
    requires { IsSome (drill_of (map string_bytes words.now)) }
    ensures command { IfOk result (λ c. drill_of (map string_bytes words.now) ≡ Some c) }
    ensures ranges { IfOk result IsInRange }
    ensures fault { IfErr result (λ fault. fault ≡ WordsFault.OutOfMemory) }
{
    let command = drill_options(alloc)?;
    let matches = parse(command, words)?;
    let workers = matches.get_one::<u32>("workers");
    let Some(size) = matches.get_one::<u32>("size") else {
        unreachable!()
    };
    Ok(Command::Drill {
        size,
        workers: workers.unwrap_or(1),
    })
}

/// What `clap` finds in words that the command takes, where it can fail for want of memory alone.
fn parse<'a>(command: clap::Command<'a>, words: &'a [String]) -> Result<ArgMatches<'a>, WordsFault>
    requires { takes (app_of command) (map string_bytes words.now) ≡ true }
    ensures matches { IfOk result (HasMatchesOf (app_of command.entry)
        (map string_bytes words.entry.now)) }
    ensures fault { IfErr result (λ fault. fault ≡ WordsFault.OutOfMemory) }
{
    match command.try_get_matches_from(words) {
        Ok(matches) => Ok(matches),
        Err(error) => match error.kind() {
            ErrorKind::OutOfMemory => Err(WordsFault::OutOfMemory),
            _ => unreachable!(),
        },
    }
}
