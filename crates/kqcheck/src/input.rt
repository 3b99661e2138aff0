//! The trace or the answers are read to the end, and have so many bytes at most.

ghost use Rattle.std.specs.Prelude.{◌≡◌, ◌≤◌, ◌⊎◌, length, IfOk, IfErr, IfSome};

use crate::fault::Fault;
use std::alloc::Global;
use std::io::Read;

/// The most bytes of a file that the program reads: 2^28.
pub const MOST_BYTES: usize = 268435456;

/// Bytes that one read asks for.
const CHUNK: usize = 65536;

/// All that the reader has, which may be `limit` bytes at most. It reads at most `limit` + 1 times.
///
/// A read that fails, an interrupted one too, and a reader with more than `limit` bytes are the fault `unread`.
pub fn read_in<R: Read>(
    alloc: Global,
    reader: &mut R,
    limit: usize,
    unread: Fault,
) -> Result<Vec<u8>, Fault>
    ensures all { IfOk result (λ bytes. IfSome (R.remaining reader.old) (λ xs. bytes.items ≡ xs)) }
    ensures within { IfOk result (λ bytes. length bytes.items ≤ limit) }
    ensures fault { IfErr result (λ f. (f ≡ unread) ⊎ (f ≡ Fault.Memory)) }
{
    let mut chunk = chunk(alloc)?;
    let mut bytes = Vec::new(alloc);
    for _ in 0..=limit {
        let Ok(n) = reader.read(&mut chunk) else {
            return Err(unread);
        };
        if n == 0 {
            return Ok(bytes);
        }
        if limit - bytes.len() < n {
            return Err(unread);
        }
        bytes
            .extend_from_slice(&chunk[..n])
            .map_err(|_| Fault::Memory)?;
    }
    unreachable!()
}

fn chunk(alloc: Global) -> Result<Vec<u8>, Fault>
    ensures len { IfOk result (λ v. length v.items ≡ CHUNK) }
    ensures fault { IfErr result (λ f. f ≡ Fault.Memory) }
{
    vec![in alloc; 0u8; CHUNK].map_err(|_| Fault::Memory)
}
