//! Lists of sources, each once, and the sources that the changes of a call name.

ghost use Rattle.std.specs.Prelude.{◌≡◌, ◌∷◌, [], slice_get, IfOk, OnOk};
ghost use Rattle.std.specs.List.{IsDistinct};
ghost use Rattle.kq_projection.specs.Items.{has_source, source_eq};
ghost use Rattle.kq_projection.specs.declared.history.item.Source.{Source as declared_source};
ghost use Rattle.kq_model.specs.Knote.{is_timer, watches_number};
ghost use Rattle.kq_model.specs.References.{named_target, unless_file};

use crate::history::item::Source;
use indexmap::IndexSet;
use kq_model::{Change, Filter, Memory, Target, Views, target_of};
use std::alloc::Global;

/// Sources, each once, in the order in which they came.
#[derive(Drop)]
pub struct Sources {
    pub(crate) set: IndexSet<Source>,
}

impl Sources {
    ghost use Rattle.kq_projection.specs.Sources.{Begins, Grows, call_sources, change_sources};
    ghost use Rattle.kq_projection.specs.Sources.{clock_sources, number_sources, target_sources};

    /// No source.
    pub fn new(alloc: Global) -> Self
        ensures { result.set.keys ≡ [] }
    {
        Sources {
            set: IndexSet::new(alloc),
        }
    }

    /// One source alone.
    pub fn one(alloc: Global, source: Source) -> Result<Self, Memory>
        ensures { IfOk result (λ s. s.set.keys ≡ source ∷ []) }
    {
        let mut set = IndexSet::new(alloc);
        set.insert(source)?;
        Ok(Sources { set })
    }

    /// Those of a list, each once.
    pub fn of(alloc: Global, list: &[Source]) -> Result<Self, Memory>
        ensures { IfOk result (λ s. (x : declared_source) → has_source s.set.keys x ≡ has_source list.now x) }
    {
        let mut sources = Sources::new(alloc);
        sources.add_all(list)?;
        Ok(sources)
    }

    /// Those of a list, where they are not there.
    fn add_all(&mut self, list: &[Source]) -> Result<(), Memory>
        ensures { OnOk result (Grows list.now self.old self.new) }
    {
        for source in list {
            self.add(*source)?;
        }
        Ok(())
    }

    /// The source that stands there, if there is one.
    pub fn get(&self, index: usize) -> Option<Source>
        ensures { result ≡ slice_get self.now.set.keys index }
    {
        self.set.get_index(index).copied()
    }

    pub fn as_slice(&self) -> &[Source]
        ensures list { result.now ≡ self.now.set.keys }
        ensures distinct { IsDistinct source_eq result.now }
    {
        self.set.as_slice()
    }

    /// One source more, where it is not there.
    pub fn add(&mut self, source: Source) -> Result<(), Memory>
        ensures grows { OnOk result (Grows (source ∷ []) self.old self.new) }
        ensures begins { OnOk result (Begins self.old.set.keys self.new.set.keys) }
    {
        self.set.insert(source)?;
        Ok(())
    }

    /// The number that a change of this process names, where it is a descriptor's.
    fn add_number(&mut self, pid: u32, change: &Change) -> Result<(), Memory>
        ensures { OnOk result (Grows (number_sources (watches_number change.now.filter) pid change.now.ident)
            self.old self.new) }
    {
        if !watches_number(change.filter) {
            return Ok(());
        }
        let number = change.ident;
        self.add(Source::Number { pid, number })
    }

    /// The target that a change names, where it names one.
    pub(crate) fn add_target(&mut self, target: Option<Target>) -> Result<(), Memory>
        ensures grows { OnOk result (Grows (target_sources target) self.old self.new) }
        ensures begins { OnOk result (Begins self.old.set.keys self.new.set.keys) }
    {
        match target {
            None => Ok(()),
            Some(target) => self.add(Source::Of(target)),
        }
    }

    /// The clock, where a change names it.
    fn add_clock(&mut self, filter: Filter) -> Result<(), Memory>
        ensures { OnOk result (Grows (clock_sources (is_timer filter)) self.old self.new) }
    {
        if !is_timer(filter) {
            return Ok(());
        }
        self.add(Source::Clock)
    }

    /// All that a change of this process names.
    fn name<V: Views>(&mut self, pid: u32, change: &Change, views: &V) -> Result<(), Memory>
        ensures { OnOk result (Grows (change_sources (V.sees views.now) pid change.now) self.old self.new) }
    {
        self.add_number(pid, change)?;
        self.add_target(named_target(pid, change, views))?;
        self.add_clock(change.filter)
    }

    /// All that the changes of a call by this process name.
    pub fn name_all<V: Views>(
        &mut self,
        pid: u32,
        changes: &[Change],
        views: &V,
    ) -> Result<(), Memory>
        ensures { OnOk result (Grows (call_sources (V.sees views.now) pid changes.now) self.old self.new) }
    {
        for change in changes {
            self.name(pid, change, views)?;
        }
        Ok(())
    }
}

/// Whether a filter watches what a number names.
#[tactic(auto, unfolding(kq_model::specs::Knote::watches_number))]
fn watches_number(filter: Filter) -> bool
    ensures { result ≡ watches_number filter }
{
    match filter {
        Filter::Read | Filter::Write | Filter::Vnode => true,
        _ => false,
    }
}

#[tactic(auto, unfolding(kq_model::specs::Knote::is_timer))]
fn is_timer(filter: Filter) -> bool
    ensures { result ≡ is_timer filter }
{
    match filter {
        Filter::Timer => true,
        _ => false,
    }
}

/// The target that a change names. WRITE watches no file.
#[tactic(auto, unfolding(kq_model::specs::References::named_target, kq_model::specs::References::unless_file))]
fn named_target<V: Views>(owner: u32, change: &Change, views: &V) -> Option<Target>
    ensures { result ≡ named_target (V.sees views.now) owner change.now.filter change.now.ident }
{
    let target = target_of(owner, change, views);
    match change.filter {
        Filter::Write => unless_file(target),
        _ => target,
    }
}

#[tactic(auto, unfolding(kq_model::specs::References::unless_file))]
fn unless_file(target: Option<Target>) -> Option<Target>
    ensures { result ≡ unless_file target }
{
    match target {
        Some(Target::Open(_)) => None,
        other => other,
    }
}
