//! What the members of a record are read as.

use kq_model::EvFlags;

/// The value of a member, as far as records and changes have such values.
#[derive(Drop, Clone, Copy)]
pub enum Piece<'a> {
    /// A whole number from 0 on.
    Number(u64),
    /// A whole number below 0: the one that stands so far below -1, up to 2^63 - 1.
    Below(u64),
    /// True or false.
    Truth(bool),
    /// A name, as it stands in the line.
    Name(&'a [u8]),
    /// A list of names of flags.
    Flags(EvFlags),
    /// The list of changes, which stands beside the members.
    Changes,
}

/// A member of a record or a change: its name, as it stands in the line, and its value.
#[derive(Drop, Clone, Copy)]
pub struct Member<'a> {
    pub name: &'a [u8],
    pub piece: Piece<'a>,
}

impl<'a> Default for Member<'a> {
    fn default() -> Self {
        Member {
            name: &[],
            piece: Piece::Changes,
        }
    }
}
