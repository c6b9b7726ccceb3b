//! The options of each command, for `clap`.
ghost use Rattle.std.specs.Prelude.{◌≡◌, IfOk, false};
ghost use Rattle.clap.specs.Words.{app_of, rule_of};
ghost use Rattle.command_words.specs.Options.{bare_app, budget_rule, check_app, drill_app};
ghost use Rattle.command_words.specs.Options.{enumerate_app, size_rule, workers_rule};

use clap::{Arg, ArgAction, value_parser};
use std::alloc::{AllocError, Global};

/// The words behind `enumerate`.
pub(crate) fn enumerate_options<'a>(alloc: Global) -> Result<clap::Command<'a>, AllocError>
    ensures { IfOk result (λ c. app_of c ≡ enumerate_app) }
{
    bare_command(alloc, "enumerate")
        .arg(workers_option(alloc))?
        .arg(budget_option(alloc))
}

/// The words behind `check`.
pub(crate) fn check_options<'a>(alloc: Global) -> clap::Command<'a>
    ensures { app_of result ≡ check_app }
{
    bare_command(alloc, "check")
}

/// The words behind `drill`.
pub(crate) fn drill_options<'a>(alloc: Global) -> Result<clap::Command<'a>, AllocError>
    ensures { IfOk result (λ c. app_of c ≡ drill_app) }
{
    bare_command(alloc, "drill")
        .arg(size_option(alloc))?
        .arg(workers_option(alloc))
}

/// A command with no options, where each word is one of its own.
fn bare_command<'a>(alloc: Global, name: &'a str) -> clap::Command<'a>
    ensures { app_of result ≡ bare_app name.entry.now }
{
    clap::Command::new(alloc, name)
        .no_binary_name(true)
        .disable_help_flag(true)
        .disable_version_flag(true)
}

/// How many workers there are.
fn workers_option<'a>(alloc: Global) -> Arg<'a>
    ensures rule { rule_of result ≡ workers_rule }
    ensures local { result.global ≡ false }
{
    Arg::new(alloc, "workers")
        .long("workers")
        .action(ArgAction::Set)
        .value_parser(value_parser!(u32).range(1..=16))
}

/// After how many leaves the run stops.
fn budget_option<'a>(alloc: Global) -> Arg<'a>
    ensures rule { rule_of result ≡ budget_rule }
    ensures local { result.global ≡ false }
{
    Arg::new(alloc, "budget")
        .long("budget")
        .action(ArgAction::Set)
        .value_parser(value_parser!(u64).range(1..=4611686018427387904))
}

/// The size of a drill, which has to be given.
fn size_option<'a>(alloc: Global) -> Arg<'a>
    ensures rule { rule_of result ≡ size_rule }
    ensures local { result.global ≡ false }
{
    Arg::new(alloc, "size")
        .long("size")
        .required(true)
        .action(ArgAction::Set)
        .value_parser(value_parser!(u32).range(1..=48))
}
