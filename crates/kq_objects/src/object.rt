//! What a kept object does: it is made by its first record, and takes further ones.

ghost use Rattle.std.specs.Prelude.{◌≡◌, ℕ, Bool, true, Option, None, Some};
ghost use Rattle.kq_model.specs.Accounts.{Account};

/// What descriptors name, as a socket: its first record makes it, and it is there until no descriptor names
/// it any more.
pub trait Object: Drop {
    type Record: Copy + Drop;

    // What its records make of it.
    ghost book: { Account Self.Record Self Self };

    // Whether a descriptor names it.
    ghost stays: { Self → Bool };

    // The record can be noted of what is there: of nothing only one that makes it, and of no other such a one.
    ghost fits: { Self.Record → Option Self → Type 0 };

    // How many objects the record makes.
    ghost makes: { Self.Record → ℕ };

    /// The object that its first record makes.
    fn first(told: Self::Record) -> Self
        requires { fits told None }
        ensures one { makes told ≡ 1 }
        ensures made { result ≡ book.told told book.fresh }
        ensures held { stays (book.quantities result) ≡ true };

    /// Notes one more record.
    fn tell(&mut self, told: Self::Record)
        requires { fits told (Some self.old) }
        ensures { self.new ≡ book.told told self.old };

    /// Whether a descriptor names it.
    fn is_held(&self) -> bool
        ensures { result ≡ stays (book.quantities self.now) };
}
