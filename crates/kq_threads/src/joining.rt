//! Two calls at once, where it is told whether the first had a thread of its own.

ghost use Rattle.std.specs.Prelude.{◌≡◌};

use crate::task::{Lent, Once, run_both};
use std::sync::Wait;
use std::thread::Threads;

/// What two calls returned.
#[derive(Drop)]
pub struct Joined<A, B> {
    pub first: A,
    pub second: B,
    /// Whether a thread could be made for the first.
    pub has_started: bool,
}

/// Calls the first closure on a thread of its own and the second on this one, and returns when both have returned.
/// Where no thread can be made, the first is called on this one, after the second.
pub fn join<
    R: Threads + Wait,
    F: FnOnce() -> A + Send + Drop,
    G: FnOnce() -> B + Drop,
    A: Send + Drop,
    B,
>(rt: &R, first: F, second: G) -> Joined<A, B>
    requires { F.pre first × G.pre second }
    ensures first { F.post first result.first }
    ensures second { G.post second result.second }
{
    run_both(rt, Once { call: first }, Once { call: second })
}

/// Calls two closures that are lent, as [`join`] does, so that it is known what each leaves in its captures.
pub fn join_mut<
    R: Threads + Wait,
    F: FnMut() -> A + Send,
    G: FnMut() -> B,
    A: Send + Drop,
    B: Drop,
>(rt: &R, first: &mut F, second: &mut G) -> Joined<A, B>
    requires { F.pre first.old × G.pre second.old }
    ensures first { F.step first.old result.first first.new }
    ensures second { G.step second.old result.second second.new }
{
    let Joined {
        first: (first, a),
        second: (second, b),
        has_started,
    } = run_both(rt, Lent { call: first }, Lent { call: second });
    take_back(first);
    take_back(second);
    Joined {
        first: a,
        second: b,
        has_started,
    }
}

/// For the prover alone: does nothing, but this use of a returned reference ties it to the parameter that lent it.
fn take_back<T>(x: &mut T)
    ensures { x.new ≡ x.old }
{}
