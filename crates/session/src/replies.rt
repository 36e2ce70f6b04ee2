// The replies to the lines of the formulas.
ghost use Rattle.std.specs.Prelude.{◌≡◌, ◌<◌, IfOk, IsErrOf};
ghost use Rattle.command_words.specs.Laws.{AreInRange};
ghost use Rattle.model_core.specs.Model.{labelled_chain};
ghost use Rattle.outside.specs.Causes.{HasCause};
ghost use Rattle.session.specs.Reading.{WritesReply, WritesFrontOfReply, WritesReplies, WritesFrontOfReplies};
ghost use Rattle.text_lines.specs.Items.{line_text};

use crate::formula_lines::formula_lines;
use crate::line_reply::{reply_to, write_reply};
use crate::reading::Input;
use outside::{Gate, PutFault, Sink};
use std::alloc::Global;
use std::thread::Threads;
use text_lines::Line;

/// Replies to each line of the formulas, and writes the reply before the next line is looked at. Tells whether each line
/// is answered.
pub(crate) fn write_replies<R: Threads + Sync, K: Sink, G: Gate>(
    rt: &R,
    alloc: Global,
    input: &Input,
    out: &mut K,
    gate: &G,
) -> Result<bool, PutFault>
    requires options { AreInRange input.now.options }
    requires state { input.now.options.state < input.now.model.n }
    ensures written { IfOk result (WritesReplies (labelled_chain input.now.model) input.now.options input.now.text.items
        (K.written out.old) (K.written out.new)) }
    ensures front { WritesFrontOfReplies (labelled_chain input.now.model) input.now.options input.now.text.items (K.written out.old)
        (K.written out.new) }
    ensures flushed { K.flushed out.new ≡ K.flushed out.old }
    ensures cause { HasCause (K.fault_count out.old) (K.fault_count out.new) (IsErrOf result PutFault.Failed) }
{
    let mut all_answered = true;
    for line in formula_lines(&input.text) {
        let answered = reply_line(rt, alloc, input, line, out, gate)?;
        all_answered &= answered;
    }
    Ok(all_answered)
}

// Writes the reply to a line, and tells whether it is an answer.
fn reply_line<R: Threads + Sync, K: Sink, G: Gate>(
    rt: &R,
    alloc: Global,
    input: &Input,
    line: Line<'_>,
    out: &mut K,
    gate: &G,
) -> Result<bool, PutFault>
    requires options { AreInRange input.now.options }
    requires state { input.now.options.state < input.now.model.n }
    ensures written { IfOk result (WritesReply (labelled_chain input.now.model) input.now.options (line_text line.entry)
        (K.written out.old) (K.written out.new)) }
    ensures front { WritesFrontOfReply (labelled_chain input.now.model) input.now.options (line_text line.entry) (K.written out.old)
        (K.written out.new) }
    ensures flushed { K.flushed out.new ≡ K.flushed out.old }
    ensures cause { HasCause (K.fault_count out.old) (K.fault_count out.new) (IsErrOf result PutFault.Failed) }
{
    let reply = reply_to(rt, alloc, &input.model, &input.options, line.bytes, gate)?;
    write_reply(alloc, line.number, &reply, input.model.labels(), out)?;
    Ok(reply.is_answer())
}
