//! Bytes that one read takes.

ghost use Rattle.std.specs.Prelude.{◌≡◌, ◌≤◌, ◌<◌, IfErr, IfOk, length, take};
ghost use Rattle.std.specs.Io.KnownBytes.{IsAtEnd};
ghost use Rattle.kq_trace.specs.ReadFaults.{IsReadFault};
ghost use Rattle.kq_trace.specs.Source.{Gives};

use crate::input_error::InputError;
use crate::source::Source;
use kq_model::Memory;
use std::alloc::Global;

/// How many a read asks for.
const BYTES: usize = 8_192;

/// Room for the bytes of one read.
#[derive(Drop)]
pub struct Chunk {
    pub(crate) bytes: Vec<u8>,
    ghost some: { 0 < length bytes.items },
}

impl Chunk {
    pub fn new(alloc: Global) -> Result<Self, Memory> {
        let bytes = vec![in alloc; 0u8; BYTES]?;
        Ok(Chunk { bytes })
    }

    /// Puts the bytes that come next to the front: how many they are, and none only at the end.
    pub fn read<S: Source>(&mut self, source: &mut S) -> Result<usize, InputError>
        ensures given { IfOk result (λ count.
            Gives (S.ahead source.old) (S.ahead source.new) (take count self.new.bytes.items)) }
        ensures within { IfOk result (λ count. count ≤ length self.new.bytes.items) }
        ensures end { IfOk result (λ count. count ≡ 0 → IsAtEnd (S.ahead source.new).known) }
        ensures fault { IfErr result (IsReadFault S.may_fail) }
    {
        source.read(&mut self.bytes).map_err(|_| InputError::Read)
    }

    /// The first bytes, of this number.
    pub fn first(&self, count: usize) -> &[u8]
        requires { count ≤ length self.now.bytes.items }
        ensures { result.now ≡ take count self.now.bytes.items }
    {
        &self.bytes[..count]
    }
}
