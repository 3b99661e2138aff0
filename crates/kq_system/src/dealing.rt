//! How the kqueues of a system are dealt to its shares.

ghost use Rattle.std.specs.Prelude.{◌≡◌, ◌<◌, Some};

/// 2^64 over the golden ratio.
const MULTIPLIER: u64 = 11_400_714_819_323_198_485;

/// The bits of a product that say least of its factor.
const LOW_BITS: u64 = 8_589_934_592;

/// How the kqueues are dealt to so many shares, 1 and more, which are numbered from 0 on. Any seed deals each to one
/// share; some deal more evenly than others.
#[derive(Debug, Drop, Clone, Copy, PartialEq, Eq)]
pub struct Dealing {
    pub shares: u32,
    pub seed: u32,
}

impl Dealing {
    ghost use Rattle.kq_system.specs.Dealing.{mixed, share_for};

    /// The number of the share that has the kqueue which was made at a place.
    pub fn share_for(self, place: u64) -> u32
        requires { 0 < self.shares }
        ensures { result ≡ share_for self (Some place) }
    {
        (self.mixed(place) % u64::from(self.shares)) as u32
    }

    /// A place, spread over 31 bits.
    fn mixed(self, place: u64) -> u64
        ensures { result ≡ mixed self.seed place }
    {
        place
            .wrapping_add(u64::from(self.seed))
            .wrapping_mul(MULTIPLIER)
            / LOW_BITS
    }
}
