//! The words of the command line.
ghost use Rattle.std.specs.Prelude.{◌≡◌, ◌⊎◌, IfErr};
ghost use Rattle.kqsplit.specs.Words.{wanted_of};

use clap::error::ErrorKind;
use clap::{Arg, ArgAction, ArgMatches, Command, Error};
use kq_split::{Fault, Wanted};
use std::alloc::{AllocError, Global};

/// What the program is asked for.
#[derive(Debug, Drop, PartialEq)]
pub struct Order {
    pub wanted: Wanted,
    /// The file with the trace, or `-` for standard input.
    pub file: String,
}

/// The order that the words after the program's name give: `TRACE`, `--kqueue P TRACE` or `--kqueue P --rows TRACE`.
///
/// All other words, none and a request for help too, are [`Fault::Usage`].
pub fn parse_words(alloc: Global, words: &[&str]) -> Result<Order, Fault>
    ensures { IfErr result (λ f. (f ≡ Fault.Usage) ⊎ (f ≡ Fault.Memory)) }
{
    let mut all = Vec::new(alloc);
    all.push("kqsplit").map_err(|_| Fault::Memory)?;
    all.extend_from_slice(words).map_err(|_| Fault::Memory)?;
    let command = command(alloc).map_err(|_| Fault::Memory)?;
    let matches = command
        .try_get_matches_from(all.as_slice())
        .map_err(fault_of)?;
    order_of(alloc, &matches)
}

fn command<'a>(alloc: Global) -> Result<Command<'a>, AllocError> {
    let kqueue = Arg::new(alloc, "kqueue")
        .long("kqueue")
        .action(ArgAction::Set);
    let rows = Arg::new(alloc, "rows")
        .long("rows")
        .action(ArgAction::SetTrue);
    let trace = Arg::new(alloc, "TRACE")
        .required(true)
        .action(ArgAction::Set);
    Command::new(alloc, "kqsplit")
        .arg(kqueue)?
        .arg(rows)?
        .arg(trace)
}

fn fault_of(error: Error) -> Fault
    ensures { (result ≡ Fault.Usage) ⊎ (result ≡ Fault.Memory) }
{
    if error.kind() == ErrorKind::OutOfMemory {
        Fault::Memory
    } else {
        Fault::Usage
    }
}

fn order_of(alloc: Global, matches: &ArgMatches<'_>) -> Result<Order, Fault>
    ensures { IfErr result (λ f. (f ≡ Fault.Usage) ⊎ (f ≡ Fault.Memory)) }
{
    let wanted = wanted_of(kqueue_in(matches)?, matches.get_flag("rows"))?;
    let file = matches.get_str("TRACE").ok_or(Fault::Usage)?;
    let file = String::from_str(alloc, file).map_err(|_| Fault::Memory)?;
    Ok(Order { wanted, file })
}

/// The place behind `--kqueue`.
fn kqueue_in(matches: &ArgMatches<'_>) -> Result<Option<u64>, Fault>
    ensures { IfErr result (λ f. f ≡ Fault.Usage) }
{
    match matches.get_str("kqueue") {
        None => Ok(None),
        Some(word) => match word.parse::<u64>() {
            Ok(place) => Ok(Some(place)),
            Err(_) => Err(Fault::Usage),
        },
    }
}

/// What is asked for with the place behind `--kqueue`, and with `--rows`, which says nothing without a place.
fn wanted_of(kqueue: Option<u64>, rows: bool) -> Result<Wanted, Fault>
    ensures { result ≡ wanted_of kqueue rows }
{
    match (kqueue, rows) {
        (None, false) => Ok(Wanted::Kqueues),
        (Some(kqueue), false) => Ok(Wanted::Items { kqueue }),
        (Some(kqueue), true) => Ok(Wanted::Rows { kqueue }),
        (None, true) => Err(Fault::Usage),
    }
}
