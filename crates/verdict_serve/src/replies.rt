//! The reply to a line that reads events.

ghost use Rattle.std.specs.Prelude.{◌≡◌, ◌++◌, IfOk, OnOk};
ghost use Rattle.hist_types.specs.CanonicalText.{operation_text};
ghost use Rattle.hist_types.specs.Sessions.{events_reply};
ghost use Rattle.hist_types.specs.Texts.{line};
ghost use Rattle.edn_ops.specs.SourceTexts.{AreMopTexts};

use edn_ops::write::{MopText, write_op};
use journal_core::range::EventRange;
use op_view::op::OpView;
use report_text::short::number_line;
use std::alloc::{AllocError, Global};

/// Makes the list that of the texts of an operation's keys and values.
fn texts_of<'a>(texts: &mut Vec<MopText<'a>>, op: &OpView<'a>) -> Result<(), AllocError>
    ensures { OnOk result (AreMopTexts texts.new.items op.now.mops) }
{
    texts.clear();
    for mop in op.mops() {
        texts.push(mop.text())?;
    }
    Ok(())
}

/// Appends the line of an operation.
fn append_operation<'a>(
    out: &mut Vec<u8>,
    texts: &mut Vec<MopText<'a>>,
    op: &OpView<'a>,
) -> Result<(), AllocError>
    ensures { OnOk result (out.new.items ≡ out.old.items ++ line (operation_text op.now)) }
{
    texts_of(texts, op)?;
    write_op(out, op.kind(), op.process(), texts)?;
    out.push(b'\n')?;
    Ok(())
}

/// The reply to a line that reads events.
pub fn events_reply(alloc: Global, events: &EventRange<'_>) -> Result<Vec<u8>, AllocError>
    ensures { IfOk result (λ reply. reply.items ≡ events_reply events.now) }
{
    let mut reply = Vec::from_slice(alloc, &number_line(b"events", events.len()))?;
    let mut texts = Vec::new(alloc);
    for op in events.iter() {
        append_operation(&mut reply, &mut texts, &op)?;
    }
    Ok(reply)
}
