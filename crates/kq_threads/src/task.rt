//! Calls as values, of which it is known what they return and leave.

ghost use Rattle.std.specs.Prelude.{◌≡◌};

use crate::joining::Joined;
use std::snapshot::Snapshot;
use std::sync::Wait;
use std::thread;
use std::thread::{Promise, Threads};

/// A call that is made once.
pub trait Task {
    type Output;

    // It may be made.
    ghost can_run: { Self → Type 0 };

    // It may return this.
    ghost gives: { Self → Self.Output → Type 0 };

    fn run(self) -> Self::Output
        requires { can_run self }
        ensures { gives self result };
}

/// A closure that is called once.
#[derive(Drop)]
pub struct Once<F> {
    pub call: F,
}

impl<F: FnOnce() -> A, A> Task for Once<F> {
    type Output = A;

    ghost can_run = { λ t. F.pre t.call };

    ghost gives = { λ t r. F.post t.call r };

    fn run(self) -> A {
        let Once { call } = self;
        call()
    }
}

/// A closure that is lent, and given back with what it returned.
#[derive(Drop)]
pub struct Lent<'a, F> {
    pub call: &'a mut F,
}

impl<'a, F: FnMut() -> A, A> Task for Lent<'a, F> {
    type Output = (&'a mut F, A);

    ghost can_run = { λ t. F.pre t.call.now };

    ghost gives = { λ t r. (r.0.ghost_name ≡ t.call.ghost_name) × F.step t.call.now r.1 r.0.now };

    fn run(self) -> (&'a mut F, A) {
        let Lent { call } = self;
        let a = call();
        (call, a)
    }
}

/// What a call gives in its thread.
#[derive(Drop)]
struct GivenBy<S> {
    task: Snapshot<S>,
}

impl<S: Task<Output = A>, A> Promise<A> for GivenBy<S> {
    ghost kept_by = { λ p r. S.gives p.task.value r };
}

/// Makes the first call on a thread of its own and the second on this one. Where no thread can be made, the first is
/// made on this one, after the second.
pub fn run_both<
    R: Threads + Wait,
    S: Task<Output = A> + Send + Drop,
    T: Task<Output = B> + Drop,
    A: Send + Drop,
    B,
>(rt: &R, first: S, second: T) -> Joined<A, B>
    requires { S.can_run first × T.can_run second }
    ensures { S.gives first result.first × T.gives second result.second }
{
    thread::scope(
        thread::scope_env(),
        rt,
        |scope| -> Joined<A, B>
            requires { S.can_run first × T.can_run second }
            ensures { S.gives first result.first × T.gives second result.second }
        {
            let promise = GivenBy {
                task: Snapshot::of(&first),
            };
            let started = scope.spawn_with(
                promise,
                move || -> A
                    requires { S.can_run first }
                    ensures { S.gives first result }
                { first.run() },
            );
            let second = second.run();
            match started {
                Ok(child) => Joined {
                    first: child.join(rt),
                    second,
                    has_started: true,
                },
                Err(refused) => Joined {
                    first: (refused.value)(),
                    second,
                    has_started: false,
                },
            }
        },
    )
}
