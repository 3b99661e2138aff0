//! Bytes are written whole, and passed on.

ghost use Rattle.std.specs.Prelude.{◌≡◌, ◌++◌, List, ℕ, OnOk, OnErr, IfErr};
ghost use Rattle.std.specs.Io.KnownBytes.{Appends};

use crate::fault::Fault;
use std::io::Write;

/// Writes all of `bytes`, and has the writer pass them on.
///
/// A write that fails, an interrupted one too, or takes nothing is [`Fault::Write`]; a prefix of
/// `bytes` was written then.
pub fn write_out<W: Write>(bytes: &[u8], writer: &mut W) -> Result<(), Fault>
    ensures whole { OnOk result (Appends (W.contents writer.old) (W.contents writer.new) bytes.now) }
    ensures part { OnErr result ((done : List ℕ) × (rest : List ℕ) × (bytes.now ≡ done ++ rest)
        × Appends (W.contents writer.old) (W.contents writer.new) done) }
    ensures fault { IfErr result (λ f. f ≡ Fault.Write) }
{
    match kq_text::write_out(bytes, writer) {
        Ok(()) => writer.flush().map_err(|_| Fault::Write),
        Err(_) => Err(Fault::Write),
    }
}
