// The messages of one block of a header.
#![tactic(auto)]

ghost use Rattle.std.specs.Prelude.{◌+◌, ◌-◌, ◌≤◌, length, OnOk};
ghost use Rattle.scan.specs.Scan.{with_tally, Scanned, Readable, NextIs};

use format::Refusal;
use sharing::MessageVisitor;
use tally::Tally;
use walk::numbers::u16_at;

// Where messages stand in the image: from a place to the end of the last.
#[derive(Clone, Copy)]
pub struct Span {
    pub from: usize,
    pub end: usize,
}

// Reads the messages that fill the bytes of a span, and counts them behind those of the tally. A message is visited before the
// next one is read. The step is a message's size, so that no range has the places. The tally is lent: a long chain of blocks is
// read more slowly if each returns its own.
pub fn scan_block<V: MessageVisitor>(
    image: &[u8],
    found: &mut V,
    span: Span,
    tally: &mut Tally,
) -> Result<(), Refusal>
    requires from_le_end { span.from ≤ span.end }
    requires end_in_bounds { span.end ≤ length image.now }
    requires room { V.Room found.old (span.end - span.from) }
    ensures scanned { Scanned V.visit image.now span.from span.end (V.state found.old) tally.old (V.state found.new)
        (with_tally result tally.new) }
    ensures counted { OnOk result (V.Kept found.old (span.end - span.from) found.new) }
    ensures same { V.Same found.old found.new }
{
    let mut at = span.from;
    let end = span.end;
    while at < end {
        let message = message::message(image, at, end).map_err(|n| Refusal::Fault(n, at))?;
        let body = at + 8;
        let next = body + message.size;
        let kind = message.kind;
        found
            .visit_message(&image[body..next], kind)
            .map_err(|n| Refusal::Fault(n, at))?;
        *tally = tally::counted(*tally, kind, body);
        at = next;
    }
    Ok(())
}

// Where the first continuation message of a span stands, whose messages have been read already; its end if there is none.
// Here too the step is a message's size.
pub fn next_continuation(image: &[u8], span: Span) -> usize
    requires { Readable image.now span.from span.end }
    ensures { NextIs image.now span.from span.end result }
{
    let mut at = span.from;
    while at < span.end {
        if u16_at(image, at) == 0x0010 {
            return at;
        }
        at = at + 8 + u16_at(image, at + 2) as usize;
    }
    at
}
