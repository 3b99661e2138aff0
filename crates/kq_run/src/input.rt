//! A reader is read to its end, and may have so many bytes at most.

ghost use Rattle.std.specs.Prelude.{◌≡◌, ◌≤◌, ◌⊎◌, length, IfOk, IfErr, IfSome, OnOk};
ghost use Rattle.std.specs.Io.KnownBytes.{IsAtEnd};

use crate::fault::Fault;
use std::alloc::Global;
use std::io::Read;

/// Bytes that one read asks for.
const CHUNK: usize = 65536;

/// All that the reader has, which may be `limit` bytes at most. It reads at most `limit` + 1 times.
///
/// A read that fails, an interrupted one too, and a reader with more than `limit` bytes are
/// [`Fault::Read`]. After a fault part of the reader is used up.
pub fn read_in<R: Read>(alloc: Global, reader: &mut R, limit: usize) -> Result<Vec<u8>, Fault>
    ensures all { IfOk result (λ bytes. IfSome (R.remaining reader.old) (λ xs. bytes.items ≡ xs)) }
    ensures within { IfOk result (λ bytes. length bytes.items ≤ limit) }
    ensures end { OnOk result (IsAtEnd (R.remaining reader.new)) }
    ensures fault { IfErr result (λ f. (f ≡ Fault.Read) ⊎ (f ≡ Fault.Memory)) }
{
    let mut chunk = chunk(alloc)?;
    let mut bytes = Vec::new(alloc);
    for _ in 0..=limit {
        let Ok(n) = reader.read(&mut chunk) else {
            return Err(Fault::Read);
        };
        if n == 0 {
            return Ok(bytes);
        }
        if limit - bytes.len() < n {
            return Err(Fault::Read);
        }
        bytes
            .extend_from_slice(&chunk[..n])
            .map_err(|_| Fault::Memory)?;
    }
    unreachable!()
}

fn chunk(alloc: Global) -> Result<Vec<u8>, Fault>
    ensures len { IfOk result (λ v. length v.items ≡ CHUNK) }
    ensures fault { IfErr result (λ f. f ≡ Fault.Memory) }
{
    vec![in alloc; 0u8; CHUNK].map_err(|_| Fault::Memory)
}
