//! Why a line of a trace is refused: the faults in their order, and their printed names.

ghost use Rattle.std.specs.Prelude.{◌≡◌};
ghost use Rattle.kq_model.specs.FaultNames.{fault_name};

/// What is wrong with a line of a trace. Of several faults the first in this order is given.
#[derive(Debug, Drop, Clone, Copy, PartialEq, Eq)]
pub enum LineFault {
    /// More than 2^20 bytes.
    TooLong,
    /// Line 1 is not the header.
    Header,
    /// A record past the first 1,000,000.
    TooManyRecords,
    /// No JSON value.
    Json,
    /// Not an object with just the members of a record, or a member of the wrong kind.
    Field,
    /// A whole number outside its member's type.
    Range,
}

impl LineFault {
    /// The name that the program prints.
    pub fn name(self) -> &'static str
        ensures { result.now ≡ fault_name self }
    {
        match self {
            LineFault::TooLong => "TooLong",
            LineFault::Header => "Header",
            LineFault::TooManyRecords => "TooManyRecords",
            LineFault::Json => "Json",
            LineFault::Field => "Field",
            LineFault::Range => "Range",
        }
    }
}
