//! A system is made and let go, for C.
ghost use Rattle.std.specs.Prelude.{◌≡◌, IfOk, Err};
ghost use Rattle.std.specs.Borrow.{sem};
ghost use Rattle.kq_freebsd.specs.declared.refusal.Refusal.TheVariants.{Argument};
ghost use Rattle.kq_model.specs.Limits.{IsVersion};
ghost use Rattle.libkqsim.specs.Handles.{IsEmpty};
ghost use Rattle.libkqsim.specs.Kept.{IsNew, kept, published};
ghost use Rattle.libkqsim.specs.declared.handle.Kqsim.{Kqsim};

use crate::handle::Kqsim;
use crate::published::Published;
use crate::sim::Sim;
use kq_freebsd::{Refusal, refusal_number};
use std::alloc::Global;

/// An empty system on the heap.
fn empty(alloc: Global, version: u32) -> Result<Box<Sim>, Refusal>
    requires { IsVersion version }
    ensures sim { IfOk result (λ sim. IsEmpty version sim.value) }
    ensures argument { result ≡ Err Argument → ⊥ }
{
    let sim = Sim::new(alloc, version).map_err(|_| Refusal::Memory)?;
    let sim = Box::new(alloc, sim).map_err(|_| Refusal::Memory)?;
    Ok(sim)
}

/// A handle to an empty system, on the heap.
fn made(alloc: Global, version: u32) -> Result<Box<Kqsim>, Refusal>
    ensures system { IfOk result (λ sim. IsEmpty version sim.value.state) }
    ensures version { IfOk result (λ _. IsVersion version) }
    ensures argument { result ≡ Err Argument → IsVersion version → ⊥ }
{
    if version < 1 || version > 2 {
        return Err(Refusal::Argument);
    }
    let sim = Kqsim::of(empty(alloc, version)?);
    let sim = Box::new(alloc, sim).map_err(|_| Refusal::Memory)?;
    Ok(sim)
}

/// The number that `kqsim_new` gives, and the pointer that it writes.
fn publish(alloc: Global, version: u32, at: *mut Kqsim) -> Published
    ensures { IsNew version at result.at result.number result.made }
{
    match made(alloc, version) {
        Ok(sim) => Published::of(sim),
        Err(refusal) => Published::none(refusal_number(refusal), at),
    }
}

/// Makes an empty system for traces of this version, 1 or 2, and writes a pointer to it to `out`.
///
/// After another number than 0 `out` is as it was.
#[unsafe(no_mangle)]
pub extern "C" fn kqsim_new(alloc: Global, version: u32, out: &mut *mut Kqsim) -> i32
    ensures* { sem 𝓛 (published (IsNew version out.old out.new result) out.new) }
{
    let published = publish(alloc, version, *out);
    let Published { number, at } = published;
    *out = at;
    number
}

/// Lets the system behind a handle go, and the handle.
fn end(sim: Box<Kqsim>) {
    let alloc = *Box::allocator(&sim);
    let sim = Box::into_inner(sim);
    drop(sim.into_box(alloc));
}

/// Ends a system that `kqsim_new` made. C has no further use of its pointer.
#[unsafe(no_mangle)]
pub unsafe extern "C" fn kqsim_free(alloc: Global, sim: *mut Kqsim)
    ghost handle: { Kqsim }
    requires* { sem 𝓛 (kept sim handle) }
{
    end(Box::from_raw(alloc, sim));
}
