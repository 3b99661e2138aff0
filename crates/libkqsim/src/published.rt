//! What `kqsim_new` hands out.
ghost use Rattle.std.specs.Prelude.{◌≡◌, pos, Option, None, Some};
ghost use Rattle.std.specs.contracts.option.Option as option_row;
ghost use Rattle.libkqsim.specs.contracts.handle.Kqsim as kqsim_row;
ghost use Rattle.libkqsim.specs.Kept.{kept_if};
ghost use Rattle.libkqsim.specs.declared.handle.Kqsim.{Kqsim};

use crate::handle::Kqsim;
use std::marker::Model;

/// A number for C, and a pointer to a handle, where one was made. Its Drop frees nothing.
#[derive(Drop)]
pub(crate) struct Published {
    pub(crate) number: i32,
    pub(crate) at: *mut Kqsim,
    pub(crate) ghost made: { Option Kqsim } by { (option_row.the_row kqsim_row.the_row).coded },
}

impl Model for Published {
    ghost also_owns = { λ p. kept_if p.made p.at };
}

impl Published {
    /// A handle, with the number 0.
    pub(crate) fn of(sim: Box<Kqsim>) -> Published
        ensures { (result.number ≡ pos 0) × (result.made ≡ Some sim.value) }
    {
        let at = Box::into_raw(sim);
        Published { number: 0, at }
    }

    /// Another number, with a pointer that says nothing.
    pub(crate) fn none(number: i32, at: *mut Kqsim) -> Published
        ensures { (result.number ≡ number) × (result.at ≡ at) × (result.made ≡ None) }
    {
        Published { number, at }
    }
}
