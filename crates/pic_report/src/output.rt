//! Writes texts to a sink.
ghost use Rattle.std.specs.Prelude.{IfSome};
ghost use Rattle.pic_report.specs.Output.{Puts};

use crate::refusal::ReportRefusal;
use pic_io::Sink;
use std::alloc::AllocError;
use std::fmt::Display;

/// Writes a text in one piece, and then what of it was not taken.
#[inline(always)]
pub fn put_all<K: Sink>(out: &mut K, text: &[u8]) -> Result<(), ReportRefusal>
    ensures { Puts (K.taken out.old) (K.taken out.new)
        (K.fault_count out.old) (K.fault_count out.new) text.now result }
{
    let mut rest = text;
    'pieces: while !rest.is_empty() {
        let count = out.put(rest)?;
        rest = &rest[count..];
    }
    Ok(())
}

/// Writes a line, which is made in the buffer, in place of what stood there: one buffer serves for all
/// lines, so that not each of them takes memory of its own.
#[inline(always)]
pub(crate) fn put_line<K: Sink, L: Display + Drop>(
    line: L,
    buffer: &mut String,
    out: &mut K,
) -> Result<(), ReportRefusal>
    ensures { IfSome (L.output line) (λ text. Puts (K.taken out.old) (K.taken out.new)
        (K.fault_count out.old) (K.fault_count out.new) text result) }
{
    buffer.clear();
    match buffer.write(line) {
        Ok(()) => put_all(out, buffer.as_bytes()),
        Err(AllocError) => Err(ReportRefusal::Memory),
    }
}
