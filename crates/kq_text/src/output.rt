//! All of some bytes are written, or the write failed.

ghost use Rattle.std.specs.Prelude.{OnErr, OnOk};
ghost use Rattle.std.specs.Io.KnownBytes.{Appends};
ghost use Rattle.kq_text.specs.Output.{AppendsPart};

use std::io::Write;

/// A write failed, an interrupted one too, or took nothing.
#[derive(Debug, Drop, Clone, Copy, PartialEq, Eq)]
pub struct WriteFailed;

/// Writes all of these bytes. Where a write fails, a prefix of them was written.
pub fn write_out<W: Write>(bytes: &[u8], out: &mut W) -> Result<(), WriteFailed>
    ensures whole { OnOk result (Appends (W.contents out.old) (W.contents out.new) bytes.now) }
    ensures part { OnErr result (AppendsPart (W.contents out.old) (W.contents out.new) bytes.now) }
{
    let mut rest = bytes;
    while !rest.is_empty() {
        match out.write(rest) {
            Ok(n) if n > 0 => rest = &rest[n..],
            _ => return Err(WriteFailed),
        }
    }
    Ok(())
}
