//! The notes of EVFILT_VNODE that a record can give of a file, and how a trace spells them.

ghost use Rattle.std.specs.Prelude.{◌≡◌};
ghost use Rattle.kq_model.specs.Names.{note_name};

/// What a record says of a file, by the names of EVFILT_VNODE's notes; see kqueue(2).
#[derive(Debug, Drop, Clone, Copy, PartialEq, Eq)]
pub enum Note {
    /// Its attributes changed.
    Attrib,
    /// Its number of links changed.
    Link,
    Rename,
    /// It was deleted. Open descriptors of it stay usable.
    Delete,
    /// Access to it was revoked.
    Revoke,
}

impl Note {
    /// The name by which a trace spells it.
    pub fn name(self) -> &'static str
        ensures { result.now ≡ note_name self }
    {
        match self {
            Note::Attrib => "attrib",
            Note::Link => "link",
            Note::Rename => "rename",
            Note::Delete => "delete",
            Note::Revoke => "revoke",
        }
    }
}
