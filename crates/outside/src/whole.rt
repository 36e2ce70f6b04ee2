// Whole texts, read and written by the calls of a source and a sink.
ghost use Rattle.std.specs.Prelude.{◌≡◌, ◌+◌, ◌<◌, ◌≤◌, ◌^◌, length, IfOk, OnOk, IsErrOf};
ghost use Rattle.std.specs.Io.KnownBytes.{Appends, Consumes, IsAtEnd};
ghost use Rattle.outside.specs.Causes.{HasCause};
ghost use Rattle.outside.specs.Whole.{TakesCount, TakesUpTo, WritesFront};

use crate::{PutFault, Sink, Source, TakeFault};
use std::alloc::Global;

const PIECE: usize = 4096;

/// Reads the source to its end, or one byte past the limit: then it is `TooBig`. After a fault a front of what was
/// left is gone. Each turn takes at least one byte, so it ends with any source.
pub fn read_whole<S: Source>(
    alloc: Global,
    source: &mut S,
    limit: usize,
) -> Result<Vec<u8>, TakeFault>
    requires { limit < 2 ^ 63 }
    ensures bytes { IfOk result (λ bytes. Consumes (S.left source.old) (S.left source.new) bytes.items) }
    ensures end { OnOk result (IsAtEnd (S.left source.new)) }
    ensures within { IfOk result (λ bytes. length bytes.items ≤ limit) }

    ensures too_big { IsErrOf result TakeFault.TooBig
        → TakesCount (limit + 1) (S.left source.old) (S.left source.new) }
    ensures taken { TakesUpTo (limit + 1) (S.left source.old) (S.left source.new) }
    ensures cause { HasCause (S.fault_count source.old) (S.fault_count source.new) (IsErrOf result TakeFault.Failed) }
{
    let mut bytes = Vec::new(alloc);
    let mut piece = [0; PIECE];
    while bytes.len() <= limit {
        let room = PIECE.min(limit + 1 - bytes.len());
        let count = source.read(&mut piece[..room])?;
        if count == 0 {
            return Ok(bytes);
        }
        bytes.extend_from_slice(&piece[..count])?;
    }
    Err(TakeFault::TooBig)
}

/// Writes all of the text. After a fault a front of it is written, and nothing is flushed by the call. Each turn
/// writes at least one byte, so it ends with any sink.
pub fn write_whole<K: Sink>(sink: &mut K, text: &[u8]) -> Result<(), PutFault>
    ensures ok { OnOk result (Appends (K.written sink.old) (K.written sink.new) text.now) }
    ensures front { WritesFront text.now (K.written sink.old) (K.written sink.new) }
    ensures flushed { K.flushed sink.new ≡ K.flushed sink.old }
    ensures cause { HasCause (K.fault_count sink.old) (K.fault_count sink.new) (IsErrOf result PutFault.Failed) }
{
    let mut written = 0;
    while written < text.len() {
        written += sink.write(&text[written..])?;
    }
    Ok(())
}
