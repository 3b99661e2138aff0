//! The flags of kevents: their bits as FreeBSD has them, their names, and sets of them.

ghost use Rattle.std.specs.Prelude.{⊤};
ghost use Rattle.kq_model.specs.FlagNames.{flag_table};

use bitflags::{Flag, Flags};

/// The flags of a change or an event, by their names without `EV_` and with FreeBSD's values.
#[derive(Debug, Drop, Clone, Copy, PartialEq, Eq)]
pub struct EvFlags(u16);

impl EvFlags {
    pub const ADD: EvFlags = EvFlags(0x1);

    pub const DELETE: EvFlags = EvFlags(0x2);

    pub const ENABLE: EvFlags = EvFlags(0x4);

    pub const DISABLE: EvFlags = EvFlags(0x8);

    pub const ONESHOT: EvFlags = EvFlags(0x10);

    pub const CLEAR: EvFlags = EvFlags(0x20);

    pub const RECEIPT: EvFlags = EvFlags(0x40);

    pub const DISPATCH: EvFlags = EvFlags(0x80);

    pub const ERROR: EvFlags = EvFlags(0x4000);

    pub const EOF: EvFlags = EvFlags(0x8000);

    const FLAGS: &'static [Flag<EvFlags>] = &[
        Flag {
            name: "ADD",
            value: EvFlags::ADD,
        },
        Flag {
            name: "DELETE",
            value: EvFlags::DELETE,
        },
        Flag {
            name: "ENABLE",
            value: EvFlags::ENABLE,
        },
        Flag {
            name: "DISABLE",
            value: EvFlags::DISABLE,
        },
        Flag {
            name: "ONESHOT",
            value: EvFlags::ONESHOT,
        },
        Flag {
            name: "CLEAR",
            value: EvFlags::CLEAR,
        },
        Flag {
            name: "DISPATCH",
            value: EvFlags::DISPATCH,
        },
        Flag {
            name: "RECEIPT",
            value: EvFlags::RECEIPT,
        },
        Flag {
            name: "EOF",
            value: EvFlags::EOF,
        },
        Flag {
            name: "ERROR",
            value: EvFlags::ERROR,
        },
    ];
}

impl Flags for EvFlags {
    type Bits = u16;

    ghost exact = { ⊤ };

    ghost table = { flag_table };

    ghost set_of = { λ f. f.0 };

    fn flags<'a>() -> &'a [Flag<EvFlags>] {
        EvFlags::FLAGS
    }

    fn bits(&self) -> u16 {
        self.0
    }

    fn from_bits_retain(bits: u16) -> EvFlags {
        EvFlags(bits)
    }
}
