//! One word of the command line behind the other.

use crate::fault::Fault;
use kq_judge::{Ignored, Member};
use kq_model::Filter;
use std::alloc::Global;

/// What the next word is.
#[derive(Drop, Clone, Copy)]
pub enum Expects {
    /// An option, or a file.
    Word,
    /// The place behind `--explain`.
    Place,
    /// The member behind `--ignore`.
    Member,
}

/// What the words so far ask for.
#[derive(Drop)]
pub struct Asked {
    pub expects: Expects,
    pub explains: Option<u64>,
    pub ignored: Vec<Ignored>,
    pub permits: bool,
    pub trace: Option<String>,
    pub answers: Option<String>,
}

impl Asked {
    /// Nothing so far.
    pub fn new(alloc: Global) -> Self {
        Asked {
            expects: Expects::Word,
            explains: None,
            ignored: Vec::new(alloc),
            permits: false,
            trace: None,
            answers: None,
        }
    }
}

/// Takes one word more.
pub fn asked_by(alloc: Global, asked: &mut Asked, word: &str) -> Result<(), Fault> {
    match asked.expects {
        Expects::Word => option_or_file(alloc, asked, word),
        Expects::Place => {
            asked.expects = Expects::Word;
            place_by(asked, word)
        }
        Expects::Member => {
            asked.expects = Expects::Word;
            let ignored = ignored_by(word).ok_or(Fault::Usage)?;
            asked.ignored.push(ignored).map_err(|_| Fault::Memory)
        }
    }
}

fn place_by(asked: &mut Asked, word: &str) -> Result<(), Fault> {
    if asked.explains.is_some() {
        return Err(Fault::Usage);
    }
    match word.parse::<u64>() {
        Ok(at) => {
            asked.explains = Some(at);
            Ok(())
        }
        Err(_) => Err(Fault::Usage),
    }
}

fn option_or_file(alloc: Global, asked: &mut Asked, word: &str) -> Result<(), Fault> {
    match word {
        "--explain" => asked.expects = Expects::Place,
        "--ignore" => asked.expects = Expects::Member,
        "--permit-impossible" => asked.permits = true,
        _ => return file_by(alloc, asked, word),
    }
    Ok(())
}

/// A file: a word that is not empty and does not begin with `-`, or is just that.
fn file_by(alloc: Global, asked: &mut Asked, word: &str) -> Result<(), Fault> {
    if word.is_empty() || (word.starts_with("-") && word != "-") || asked.answers.is_some() {
        return Err(Fault::Usage);
    }
    let file = String::from_str(alloc, word).map_err(|_| Fault::Memory)?;
    if asked.trace.is_none() {
        asked.trace = Some(file);
    } else {
        asked.answers = Some(file);
    }
    Ok(())
}

/// The member of this name, as `WRITE.data`.
fn ignored_by(word: &str) -> Option<Ignored> {
    let (filter, member) = word.split_once(".")?;
    Some(Ignored {
        filter: filter_named(filter)?,
        member: member_named(member)?,
    })
}

/// The filter of this name.
fn filter_named(name: &str) -> Option<Filter> {
    match name {
        "READ" => Some(Filter::Read),
        "WRITE" => Some(Filter::Write),
        "VNODE" => Some(Filter::Vnode),
        "PROC" => Some(Filter::Proc),
        "SIGNAL" => Some(Filter::Signal),
        "TIMER" => Some(Filter::Timer),
        "USER" => Some(Filter::User),
        _ => None,
    }
}

/// The member of this name.
fn member_named(name: &str) -> Option<Member> {
    match name {
        "flags" => Some(Member::Flags),
        "fflags" => Some(Member::Fflags),
        "data" => Some(Member::Datum),
        "udata" => Some(Member::Udata),
        _ => None,
    }
}
