// The line of a refusal, written to a sink.
ghost use Rattle.std.specs.Prelude.{◌≡◌, ◌++◌, OnOk, IsErrOf};
ghost use Rattle.std.specs.Io.KnownBytes.{Appends};
ghost use Rattle.outside.specs.Causes.{HasCause};
ghost use Rattle.outside.specs.Whole.{WritesFront};
ghost use Rattle.report.specs.RefusalText.{refusal_line};

use outside::{PutFault, Sink, write_whole};
use std::alloc::{AllocError, Global};

/// Writes the text and a line feed, as one piece; what the sink leaves of it is handed over again.
///
/// `Failed` comes only where a write failed in this call, and `Memory` where memory ran out: then a
/// front of the line is written.
pub fn write_refusal<K: Sink>(alloc: Global, text: &[u8], out: &mut K) -> Result<(), PutFault>
    ensures ok { OnOk result (Appends (K.written out.old) (K.written out.new) (refusal_line text.now)) }
    ensures front { WritesFront (refusal_line text.now) (K.written out.old) (K.written out.new) }
    ensures flushed { K.flushed out.new ≡ K.flushed out.old }
    ensures cause { HasCause (K.fault_count out.old) (K.fault_count out.new) (IsErrOf result PutFault.Failed) }
{
    let mut line = Vec::new(alloc);
    put_line(&mut line, text)?;
    write_whole(out, &line)
}

fn put_line(line: &mut Vec<u8>, text: &[u8]) -> Result<(), AllocError>
    ensures { OnOk result (line.new.items ≡ line.old.items ++ refusal_line text.now) }
{
    line.extend_from_slice(text)?;
    line.push(b'\n')?;
    Ok(())
}
