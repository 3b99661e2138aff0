//! Records that were read together.

ghost use Rattle.std.specs.Prelude.{◌≡◌, [], ◌++◌, ◌+◌, ◌<◌, ◌^◌, OnOk, flat_map, length, nat_eq};

use kq_model::{Event, Memory};
use std::alloc::Global;
use std::marker::Model;
use std::mem::replace;

/// Records that stand one behind the other, in the pieces in which they were read.
#[derive(Drop)]
pub struct Part {
    pieces: Vec<Vec<Event>>,
    /// How many records all pieces have.
    count: u64,
}

impl Model for Part {
    ghost use Rattle.std.specs.Prelude.{◌≡◌, List, flat_map, length};
    ghost use Rattle.kq_model.specs.declared.event.Event.{Event};

    ghost Value = { List Event };

    ghost view = { λ p. flat_map (λ piece. piece.items) p.pieces.items };

    ghost invariant = { λ p. p.count ≡ length (flat_map (λ piece. piece.items) p.pieces.items) };
}

impl Part {
    pub fn new(alloc: Global) -> Self
        ensures { result ≡ [] }
    {
        Part {
            pieces: Vec::new(alloc),
            count: 0,
        }
    }

    pub fn len(&self) -> u64
        ensures { result ≡ length self.now }
    {
        self.count
    }

    pub fn is_empty(&self) -> bool
        ensures { result ≡ nat_eq (length self.now) 0 }
    {
        self.count == 0
    }

    /// Puts a piece behind the others.
    pub fn push(&mut self, piece: Vec<Event>) -> Result<(), Memory>
        requires { length self.old + length piece.items < 2 ^ 64 }
        ensures { OnOk result (self.new ≡ self.old ++ piece.items) }
    {
        let count = self.count + piece.len() as u64;
        self.pieces.push(piece)?;
        self.count = count;
        Ok(())
    }

    /// Takes all pieces out.
    pub fn take_pieces(&mut self, alloc: Global) -> Vec<Vec<Event>>
        ensures all { flat_map (λ piece. piece.items) result.items ≡ self.old }
        ensures none { self.new ≡ [] }
    {
        self.count = 0;
        replace(&mut self.pieces, Vec::new(alloc))
    }
}
