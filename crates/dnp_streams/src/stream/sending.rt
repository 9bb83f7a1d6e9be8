//! The octets that wait on a link, written.

ghost use Rattle.dnp_streams.specs.steps.Serving.{IsWriteNoted, WritesOut};

use crate::link::Link;
use crate::stream::log::Log;
use crate::writing::NotWritten;
use std::io::Write;

/// Writes what waits to be sent on a link. Where the writer fails, the octets that it did not take still wait.
fn send<W: Write>(link: &mut Link, out: &mut W) -> Result<(), NotWritten>
    ensures { WritesOut link.old (W.contents out.old) result link.new (W.contents out.new) }
{
    while !link.output().is_empty() {
        match out.write(link.output()) {
            Ok(0) | Err(_) => return Err(NotWritten),
            Ok(count) => link.sent(count),
        }
    }
    Ok(())
}

/// Writes what waits to be sent on a link, and notes where that failed.
pub(super) fn send_noted<W: Write>(
    link: &mut Link,
    out: &mut W,
    log: &mut Log,
) -> Result<(), NotWritten>
    ensures sent { WritesOut link.old (W.contents out.old) result link.new (W.contents out.new) }
    ensures noted { IsWriteNoted result log.old log.new }
{
    let sent = send(link, out);
    if sent.is_err() {
        log.write_failed = true;
    }
    sent
}
