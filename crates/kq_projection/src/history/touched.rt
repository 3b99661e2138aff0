//! What may be another one after a record: what numbers name, and what is seen of targets.

ghost use Rattle.std.specs.Prelude.{◌≡◌, ◌++◌, ◌∷◌, [], OnOk};
ghost use Rattle.kq_model.specs.World.{views_of};
ghost use Rattle.kq_process.specs.Processes.{descriptors_in};
ghost use Rattle.kq_process.specs.Slots.{filled};
ghost use Rattle.kq_process.specs.World.{world_of};
ghost use Rattle.kq_projection.specs.RecordSubjects.{file_targets, option_list, process_targets, spoken_targets};
ghost use Rattle.kq_projection.specs.Touched.{all_named, is_file, keys_of, open_numbers, other_targets, targets_left};
ghost use Rattle.kq_projection.specs.Touched.{targets_named, tells_file, told_targets, touched_numbers, AreAmong};

use crate::history::record_subjects::{
    first_number, first_opened, second_number, second_opened, spoken_file, spoken_process,
};
use kq_model::{Event, Hint, Memory, Named, Target};
use kq_process::{Effect, World};
use std::alloc::Global;

/// What a record touched. To name too much does no harm: what did not change is noted as it was. One serves all
/// records of a pass, so that none allocates for itself.
#[derive(Drop)]
pub struct Touched {
    /// By pid and number.
    pub(crate) numbers: Vec<(u32, u32)>,
    pub(crate) targets: Vec<Target>,
}

impl Touched {
    pub fn new(alloc: Global) -> Self {
        Touched {
            numbers: Vec::new(alloc),
            targets: Vec::new(alloc),
        }
    }

    /// The numbers that this record touched, and the targets but those that ended with numbers, in
    /// place of what another one did. The world is that after the record.
    pub fn fill(&mut self, event: &Event, effect: &Effect, world: &World) -> Result<(), Memory>
        ensures numbers { OnOk result (self.new.numbers.items
            ≡ touched_numbers event.now effect.now.closed (world_of world.now)) }
        ensures targets { OnOk result (AreAmong
            (other_targets event.now effect.now.hints (views_of (world_of world.now))) self.new.targets.items) }
    {
        put_numbers(&mut self.numbers, event, effect.closed.as_slice(), world)?;
        put_targets(&mut self.targets, event, effect.hints.as_slice(), world)
    }
}

/// The numbers that may name something else after a record: those that it closed or opened, and
/// those of a process that it started. The world is that after the record.
fn put_numbers(
    numbers: &mut Vec<(u32, u32)>,
    event: &Event,
    closed: &[(u32, u32)],
    world: &World,
) -> Result<(), Memory>
    ensures { OnOk result (numbers.new.items ≡ touched_numbers event.now closed.now (world_of world.now)) }
{
    numbers.clear();
    numbers.extend_from_slice(closed)?;
    push_number(numbers, first_opened(event))?;
    push_number(numbers, second_opened(event))?;
    push_open(numbers, spoken_process(event), world)
}

fn push_number(numbers: &mut Vec<(u32, u32)>, number: Option<(u32, u32)>) -> Result<(), Memory>
    ensures { OnOk result (numbers.new.items ≡ numbers.old.items ++ option_list number) }
{
    match number {
        None => Ok(()),
        Some(number) => Ok(numbers.push(number)?),
    }
}

/// All that are open in the process.
fn push_open(
    numbers: &mut Vec<(u32, u32)>,
    process: Option<u32>,
    world: &World,
) -> Result<(), Memory>
    ensures { OnOk result (numbers.new.items ≡ numbers.old.items ++ open_numbers process (world_of world.now)) }
{
    match process {
        None => Ok(()),
        Some(pid) => push_numbers(numbers, pid, world.descriptors(pid)),
    }
}

fn push_numbers(
    numbers: &mut Vec<(u32, u32)>,
    pid: u32,
    slots: &[(u32, Option<Named>)],
) -> Result<(), Memory>
    ensures { OnOk result (numbers.new.items ≡ numbers.old.items ++ keys_of (descriptors_in pid (filled slots.now))) }
{
    for slot in slots {
        if slot.1.is_some() {
            numbers.push((pid, slot.0))?;
        }
    }
    Ok(())
}

/// The targets of which something else may be seen after a record, besides those that ended with
/// numbers: whom it told, what it speaks of, and what its numbers name.
fn put_targets(
    targets: &mut Vec<Target>,
    event: &Event,
    hints: &[(Target, Hint)],
    world: &World,
) -> Result<(), Memory>
    ensures { OnOk result (AreAmong (other_targets event.now hints.now (views_of (world_of world.now)))
        targets.new.items) }
{
    targets.clear();
    push_told(targets, hints)?;
    put_spoken(targets, event)?;
    add_by_number(targets, first_number(event), world)?;
    add_by_number(targets, second_number(event), world)
}

fn put_spoken(targets: &mut Vec<Target>, event: &Event) -> Result<(), Memory>
    ensures { OnOk result (targets.new.items ≡ targets.old.items ++ spoken_targets event.now) }
{
    push_process(targets, spoken_process(event))?;
    push_file(targets, spoken_file(event))
}

/// Adds what filters may watch by a number.
fn add_by_number(
    targets: &mut Vec<Target>,
    number: Option<(u32, u32)>,
    world: &World,
) -> Result<(), Memory>
    ensures { OnOk result (AreAmong (all_named (views_of (world_of world.now)) (option_list number)
        ++ targets.old.items) targets.new.items) }
{
    match number {
        None => Ok(()),
        Some((pid, number)) => add_named(targets, world.descriptor(pid, number)),
    }
}

/// Whether a file is told.
pub fn tells_file(hints: &[(Target, Hint)]) -> bool
    ensures { result ≡ tells_file hints.now }
{
    hints.iter().any(|told| is_file(told.0))
}

#[tactic(auto, unfolding(crate::specs::Touched::is_file))]
fn is_file(target: Target) -> bool
    ensures { result ≡ is_file target }
{
    match target {
        Target::File(_) => true,
        _ => false,
    }
}

/// Adds what may have ended with a number that named this; `tells` is whether a file is told.
pub fn add_left(targets: &mut Vec<Target>, tells: bool, had: Option<Named>) -> Result<(), Memory>
    ensures { OnOk result (AreAmong (targets_left tells had ++ targets.old.items) targets.new.items) }
{
    match had {
        Some(Named::Socket(place)) => add(targets, Target::Socket(place)),
        Some(Named::Open { description, .. }) => {
            if !tells {
                return Ok(());
            }
            add(targets, Target::Open(description))
        }
        None | Some(Named::PipeRead(_) | Named::PipeWrite(_) | Named::Kqueue(_)) => Ok(()),
    }
}

/// Adds what filters may watch by what a number names.
fn add_named(targets: &mut Vec<Target>, named: Option<Named>) -> Result<(), Memory>
    ensures { OnOk result (AreAmong (targets_named named ++ targets.old.items) targets.new.items) }
{
    match named {
        None | Some(Named::Kqueue(_)) => Ok(()),
        Some(Named::Socket(place)) => add(targets, Target::Socket(place)),
        Some(Named::PipeRead(place)) => add(targets, Target::Pipe(place)),
        Some(Named::PipeWrite(place)) => add(targets, Target::Pipe(place)),
        Some(Named::Open { description, file }) => {
            add(targets, Target::Open(description))?;
            add(targets, Target::File(file))
        }
    }
}

/// Adds a target.
fn add(targets: &mut Vec<Target>, target: Target) -> Result<(), Memory>
    ensures { OnOk result (AreAmong (target ∷ targets.old.items) targets.new.items) }
{
    push(targets, target)
}

fn push(targets: &mut Vec<Target>, target: Target) -> Result<(), Memory>
    ensures { OnOk result (targets.new.items ≡ targets.old.items ++ target ∷ []) }
{
    Ok(targets.push(target)?)
}

fn push_told(targets: &mut Vec<Target>, hints: &[(Target, Hint)]) -> Result<(), Memory>
    ensures { OnOk result (targets.new.items ≡ targets.old.items ++ told_targets hints.now) }
{
    for hint in hints {
        push(targets, hint.0)?;
    }
    Ok(())
}

fn push_process(targets: &mut Vec<Target>, process: Option<u32>) -> Result<(), Memory>
    ensures { OnOk result (targets.new.items ≡ targets.old.items ++ process_targets process) }
{
    match process {
        None => Ok(()),
        Some(pid) => push(targets, Target::Process(pid)),
    }
}

fn push_file(targets: &mut Vec<Target>, file: Option<u32>) -> Result<(), Memory>
    ensures { OnOk result (targets.new.items ≡ targets.old.items ++ file_targets file) }
{
    match file {
        None => Ok(()),
        Some(number) => push(targets, Target::File(number)),
    }
}
