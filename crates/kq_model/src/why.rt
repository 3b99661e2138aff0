//! The reasons for which a record cannot happen, in their order, as a report spells them.

ghost use Rattle.std.specs.Prelude.{◌≡◌};
ghost use Rattle.kq_model.specs.Names.{why_name};

/// Why a record is impossible. Of several reasons the first in this order is given.
#[derive(Debug, Drop, Clone, Copy, PartialEq, Eq)]
pub enum Why {
    /// The pid names no live process.
    NoProcess,
    /// The new pid was used before.
    UsedPid,
    /// The number is not open in the process.
    NoDescriptor,
    /// The new number is open already.
    UsedDescriptor,
    /// The descriptor is not of the kind that the record needs.
    WrongKind,
    /// What the record takes or names is not there.
    Absent,
    /// The new file number was used before.
    UsedFile,
    /// The clock would go back.
    ClockBack,
    /// An amount is outside its limits.
    TooMany,
}

impl Why {
    /// The name by which a report spells it.
    pub fn name(self) -> &'static str
        ensures { result.now ≡ why_name self }
    {
        match self {
            Why::NoProcess => "NoProcess",
            Why::UsedPid => "UsedPid",
            Why::NoDescriptor => "NoDescriptor",
            Why::UsedDescriptor => "UsedDescriptor",
            Why::WrongKind => "WrongKind",
            Why::Absent => "Absent",
            Why::UsedFile => "UsedFile",
            Why::ClockBack => "ClockBack",
            Why::TooMany => "TooMany",
        }
    }
}
