//! The words of the command line.
ghost use Rattle.std.specs.Prelude.{◌≡◌, ◌⊎◌, [], map, false, Some, codes, option_map};
ghost use Rattle.std.specs.Prelude.{string_bytes, IfOk, IfErr};
ghost use Rattle.clap.specs.Words.{app_of, first_of, found_of, one_of, rows_of, rule_of, subcommand_rows_of};
ghost use Rattle.clap.specs.Words.{with_subcommand};
ghost use Rattle.clap.specs.declared.builder.command.Command.TheViews.{out-Command as fields_of};
ghost use Rattle.kq_command.specs.CommandLine.{IsOrderFrom, IsOrderOf, command_app, file_rule, number_in, program};
ghost use Rattle.kq_command.specs.CommandLine.{threads_rule, workers_rule};
ghost use Rattle.kq_run.specs.Workers.{IsThreadCount};

use crate::order::Order;
use clap::error::ErrorKind;
use clap::{Arg, ArgAction, ArgMatches, Command, Error, value_parser};
use kq_run::{Fault, is_thread_count, is_worker_count};
use std::alloc::{AllocError, Global};

/// The order that the words after the program's name give: `replay [--workers N] FILE`, where N is 1 to 256, or
/// `live [--threads N] FILE` or `book [--threads N] FILE`, where N is 1 to 64. N is 1 where it is not given. No
/// words at all are `replay -`.
///
/// All other words, a request for help too, are [`Fault::Usage`].
pub fn parse_words(alloc: Global, words: &[&str]) -> Result<Order, Fault>
    ensures order { IfOk result (IsOrderOf (map (λ word. word.now) words.now)) }
    ensures fault { IfErr result (λ f. (f ≡ Fault.Usage) ⊎ (f ≡ Fault.Memory)) }
    ensures none { words.now ≡ [] → IfErr result (λ f. f ≡ Fault.Memory) }
{
    if words.is_empty() {
        let file = String::from_str(alloc, "-").map_err(|_| Fault::Memory)?;
        return Ok(Order::Replay { workers: 1, file });
    }
    let mut all = Vec::new(alloc);
    all.push("kqsim").map_err(|_| Fault::Memory)?;
    all.extend_from_slice(words).map_err(|_| Fault::Memory)?;
    let command = command(alloc).map_err(|_| Fault::Memory)?;
    let matches = command
        .try_get_matches_from(all.as_slice())
        .map_err(fault_of)?;
    order_of(alloc, &matches)
}

fn workers_argument<'a>(alloc: Global) -> Arg<'a>
    ensures rule { rule_of result ≡ workers_rule }
    ensures local { result.global ≡ false }
{
    Arg::new(alloc, "workers")
        .long("workers")
        .action(ArgAction::Set)
        .value_parser(value_parser!(u32).range(1..=256))
        .default_value("1")
}

fn threads_argument<'a>(alloc: Global) -> Arg<'a>
    ensures rule { rule_of result ≡ threads_rule }
    ensures local { result.global ≡ false }
{
    Arg::new(alloc, "threads")
        .long("threads")
        .action(ArgAction::Set)
        .value_parser(value_parser!(u32).range(1..=64))
        .default_value("1")
}

fn file_argument<'a>(alloc: Global) -> Arg<'a>
    ensures rule { rule_of result ≡ file_rule }
    ensures local { result.global ≡ false }
{
    Arg::new(alloc, "FILE")
        .required(true)
        .action(ArgAction::Set)
}

/// A command with a number and a file.
fn command_with<'a>(
    alloc: Global,
    name: &'a str,
    number: Arg<'a>,
) -> Result<Command<'a>, AllocError>
    requires { number.global ≡ false }
    ensures shape { IfOk result (λ c. app_of c ≡ command_app name.entry.now (rule_of number.entry)) }
    ensures local { IfOk result (λ c. (fields_of c).has_globals ≡ false) }
{
    Command::new(alloc, name)
        .arg(number)?
        .arg(file_argument(alloc))
}

/// A command with one more below it, which has a number and a file.
fn with_command<'a>(
    alloc: Global,
    all: Command<'a>,
    name: &'a str,
    number: Arg<'a>,
) -> Result<Command<'a>, AllocError>
    requires { number.global ≡ false }
    ensures { IfOk result (λ c.
        app_of c ≡ with_subcommand (app_of all.entry) (command_app name.entry.now (rule_of number.entry)).top) }
{
    let one = command_with(alloc, name, number)?;
    all.subcommand(one)
}

fn command<'a>(alloc: Global) -> Result<Command<'a>, AllocError>
    ensures shape { IfOk result (λ c. app_of c ≡ program) }
{
    let none = Command::new(alloc, "kqsim").subcommand_required(true);
    let replay = with_command(alloc, none, "replay", workers_argument(alloc))?;
    let live = with_command(alloc, replay, "live", threads_argument(alloc))?;
    with_command(alloc, live, "book", threads_argument(alloc))
}

fn fault_of(error: Error) -> Fault
    ensures { (result ≡ Fault.Usage) ⊎ (result ≡ Fault.Memory) }
{
    if error.kind() == ErrorKind::OutOfMemory {
        Fault::Memory
    } else {
        Fault::Usage
    }
}

fn order_of(alloc: Global, matches: &ArgMatches<'_>) -> Result<Order, Fault>
    ensures order { IfOk result (IsOrderFrom (subcommand_rows_of matches.now)) }
    ensures fault { IfErr result (λ f. (f ≡ Fault.Usage) ⊎ (f ≡ Fault.Memory)) }
{
    if let Some(replay) = matches.subcommand_matches("replay") {
        let (workers, file) = number_and_file(alloc, replay, "workers")?;
        if !is_worker_count(workers) {
            return Err(Fault::Usage);
        }
        return Ok(Order::Replay { workers, file });
    }
    if let Some(live) = matches.subcommand_matches("live") {
        let (threads, file) = threads_and_file(alloc, live)?;
        return Ok(Order::Live { threads, file });
    }
    let book = matches.subcommand_matches("book").ok_or(Fault::Usage)?;
    let (threads, file) = threads_and_file(alloc, book)?;
    Ok(Order::Book { threads, file })
}

fn threads_and_file(alloc: Global, matches: &ArgMatches<'_>) -> Result<(u32, String), Fault>
    ensures range { IfOk result (λ r. IsThreadCount r.0) }
    ensures number { IfOk result (λ r.
        option_map number_in (one_of (codes "threads") (rows_of (found_of matches.now))) ≡ Some r.0) }
    ensures file { IfOk result (λ r.
        first_of (codes "FILE") (rows_of (found_of matches.now)) ≡ Some (string_bytes r.1)) }
    ensures fault { IfErr result (λ f. (f ≡ Fault.Usage) ⊎ (f ≡ Fault.Memory)) }
{
    let (threads, file) = number_and_file(alloc, matches, "threads")?;
    if !is_thread_count(threads) {
        return Err(Fault::Usage);
    }
    Ok((threads, file))
}

/// The number that an argument has, and the file.
fn number_and_file(
    alloc: Global,
    matches: &ArgMatches<'_>,
    argument: &str,
) -> Result<(u32, String), Fault>
    ensures number { IfOk result (λ r.
        option_map number_in (one_of argument.now (rows_of (found_of matches.now))) ≡ Some r.0) }
    ensures file { IfOk result (λ r.
        first_of (codes "FILE") (rows_of (found_of matches.now)) ≡ Some (string_bytes r.1)) }
    ensures fault { IfErr result (λ f. (f ≡ Fault.Usage) ⊎ (f ≡ Fault.Memory)) }
{
    let number: u32 = matches.get_one(argument).ok_or(Fault::Usage)?;
    let file = matches.get_str("FILE").ok_or(Fault::Usage)?;
    let file = String::from_str(alloc, file).map_err(|_| Fault::Memory)?;
    Ok((number, file))
}
