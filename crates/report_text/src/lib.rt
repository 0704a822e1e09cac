// The text of a damage report, for a person to read. It is tested and not proved: the functions here are proved to be safe and to end.
#![tactic(auto)]

mod sound;

ghost use Rattle.io.specs.Counts.{IsPrefixLen};

use format::{COMMAND_BLOCKS, OBJECTS_MOST, answers};
use refused_text::{Answer, Damage, Refused};
use report::Reply;
use sound::Sound;
use text_line::put;

// The most bytes of a sound file's first line, and of an object's line. A refused file has at most 9 lines, which are fewer bytes.
const FIRST_MOST: usize = 50;

const OBJECT_MOST: usize = 90;

pub const TEXT_MOST: usize = FIRST_MOST + OBJECT_MOST * OBJECTS_MOST;

const LIST_WORDS: usize = 4 * COMMAND_BLOCKS;

// Writes a report that was made of an image. Kept out of line, so that what formatting needs isn't on the stack beside the audit's lists.
#[inline(never)]
fn put_reply(out: &mut [u8], image: &[u8], reply: &Reply) -> usize
    ensures { IsPrefixLen result out.new }
{
    if reply.answer == answers::DONE {
        let sound = Sound {
            block_count: reply.block_count,
            ledger: &reply.ledger,
        };
        return put(out, sound);
    }
    let damage = Damage {
        block: reply.block,
        place: reply.place,
        met: reply.met,
        block_count: reply.block_count,
    };
    put(
        out,
        Refused {
            image,
            answer: reply.answer,
            damage,
        },
    )
}

// Writes the report of an input, and returns how many bytes that is.
pub fn text(input: &[u8], out: &mut [u8]) -> usize
    ensures { IsPrefixLen result out.new }
{
    let limits = format::the_limits();
    if limits.input_most < input.len() {
        return put(
            out,
            Answer {
                number: answers::LENGTH_OUT_OF_RANGE,
            },
        );
    }
    let mut list = [0u64; LIST_WORDS];
    put_reply(out, input, &report::report(input, &mut list))
}
