// The kind of an object, by the messages of its header.
#![tactic(auto)]

ghost use Rattle.tally.specs.Tally.{HasTally};
ghost use Rattle.kind.specs.Kind.{Located, BodyAt, KindIs};

use format::{Refusal, answers};
use message::{Bodies, Body};
use tally::Occurrence::{Absent, Once};
use tally::Tally;
use walk::numbers::{u16_at, u64_at};

// The body at a place, with its length and its flags from the message's head.
fn body_at(image: &[u8], place: usize) -> Body
    requires { Located image.now place }
    ensures { BodyAt image.now place result }
{
    Body {
        place,
        size: u16_at(image, place - 6) as usize,
        flags: image[place - 4],
    }
}

// The object that a header tells of.
#[derive(Clone, Copy)]
pub enum HeaderRead {
    Group { tree: u64, heap: u64 },
    Dataset(Bodies),
    Committed,
}

// What the object is, by its messages.
pub fn kind_of(image: &[u8], at: usize, tally: Tally) -> Result<HeaderRead, Refusal>
    requires { HasTally image.now tally }
    ensures { KindIs image.now at tally result }
{
    match (tally.space, tally.datatype, tally.layout, tally.table) {
        (Absent, Absent, Absent, Once(place)) => Ok(HeaderRead::Group {
            tree: u64_at(image, place),
            heap: u64_at(image, place + 8),
        }),
        (Once(space), Once(datatype), Once(layout), Absent) => Ok(HeaderRead::Dataset(Bodies {
            space: body_at(image, space),
            datatype: body_at(image, datatype),
            layout: body_at(image, layout),
        })),
        (Absent, Once(datatype), Absent, Absent) => {
            let body = body_at(image, datatype);
            if body.flags / 2 % 2 == 1 {
                return Err(Refusal::Fault(answers::HEADER_UNSOUND, at));
            }
            Ok(HeaderRead::Committed)
        }
        _ => Err(Refusal::Fault(answers::HEADER_UNSOUND, at)),
    }
}
