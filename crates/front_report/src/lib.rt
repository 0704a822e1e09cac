// The damage report on byte slices.
#![tactic(auto)]

ghost use Rattle.std.specs.Prelude.{◌≡◌, ◌*◌, ◌/◌, ◌≤◌, length, ◌<◌, ◌^◌};
ghost use Rattle.format.specs.Limits.{blocks_most};
ghost use Rattle.format.specs.Front.{padded_bytes, CReply};
ghost use Rattle.format.specs.Report.{c_report};
ghost use Rattle.audit.specs.Audit.{EmptyTable};
ghost use Rattle.front_report.specs.With.{words_of, ReportsWith};
ghost use Rattle.ledger.specs.Index.{index_words};
ghost use Rattle.walk.specs.Lent.{work_words};

use format::OBJECTS_MOST;
use front::{FEW_BLOCKS, FEW_WORDS, SMALL_IMAGE};
use ledger::search::{INDEX_WORDS, TABLE_WORDS};
use report::Reported;
use walk::blocks::{WORK_WORDS, work_words};

// The words of the reply: answer, block count, place, the four words of the damaged block, the block met.
const REPLY_WORDS: usize = 8;

// Writes the words of the reply, and zeros behind them.
fn write_reply(reply: &mut [u8], reported: Reported)
    requires { 8 ≤ length reply.old / 8 }
    ensures { reply.new ≡ padded_bytes (length reply.old) (words_of reported) }
{
    let answer = reported.answer as u64;
    let block_count = reported.block_count as u64;
    let block = reported.block;
    let words = [
        answer,
        block_count,
        reported.place,
        block.address,
        block.size,
        block.kind,
        block.object,
        reported.met,
    ];
    words::spill(&words, reply);
}

// The report with room for so many blocks in a list, and with the table of objects in another. It returns the audit's answer, which shows
// whether there was room.
// C lends the slices one by one. A value of them would need a clause in each contract that the same slices are lent still: no plainer than these parameters.
fn report_with(
    image: &[u8],
    list: &mut [u64],
    addresses: &mut [u64],
    blocks: &mut [u8],
    reply: &mut [u8],
    room: usize,
) -> u32
    requires room_in_bounds { work_words room ≤ length list.old }
    requires empty_table { EmptyTable addresses.old }
    requires room_in_bounds_2 { 4 * room ≤ length blocks.old / 8 }
    requires in_bounds { 8 ≤ length reply.old / 8 }
    ensures { ReportsWith image.now (length blocks.old) (length reply.old) room
        (record { answer = result; list = blocks.new; reply = reply.new }) }
{
    let mut stored = [0u32; OBJECTS_MOST];
    let mut true_counts = [0u32; OBJECTS_MOST];
    let n = work_words(room);
    let r = report::report_into(
        image,
        &mut list[..n],
        addresses,
        &mut stored,
        &mut true_counts,
    );
    let used = 4 * r.block_count;
    words::spill(&list[..used], blocks);
    write_reply(reply, r);
    r.answer as u32
}

// The report with a list and a table of so many words, as the audit has them.
fn report_sized<const WORDS: usize, const TABLE: usize>(
    image: &[u8],
    blocks: &mut [u8],
    reply: &mut [u8],
    room: usize,
) -> u32
    requires words { work_words room ≤ WORDS }
    requires words_fit { WORDS < 2 ^ 60 }
    requires table_fits { TABLE < 2 ^ 60 }
    requires table { index_words ≤ TABLE }
    requires room_in_bounds { 4 * room ≤ length blocks.old / 8 }
    requires in_bounds { 8 ≤ length reply.old / 8 }
    ensures { ReportsWith image.now (length blocks.old) (length reply.old) room
        (record { answer = result; list = blocks.new; reply = reply.new }) }
{
    let mut list = [0u64; WORDS];
    let mut addresses = [0u64; TABLE];
    report_with(image, &mut list, &mut addresses, blocks, reply, room)
}

// The report with room for so many blocks, in the smaller list that has it. A small image is first tried with room for few blocks.
// One function for the five calls would be lent this one as a closure, and would have to say what its first try leaves: no plainer.
fn report_in(image: &[u8], blocks: &mut [u8], reply: &mut [u8], room: usize) -> u32
    requires room_le_blocks_most { room ≤ blocks_most }
    requires room_in_bounds { 4 * room ≤ length blocks.old / 8 }
    requires in_bounds { 8 ≤ length reply.old / 8 }
    ensures { ReportsWith image.now (length blocks.old) (length reply.old) room
        (record { answer = result; list = blocks.new; reply = reply.new }) }
{
    if room <= FEW_BLOCKS {
        return report_sized::<FEW_WORDS, INDEX_WORDS>(image, blocks, reply, room);
    }
    if image.len() <= SMALL_IMAGE {
        let answer = report_in(image, blocks, reply, front::few_room(image.len()));
        if answer != front::NO_ROOM {
            return answer;
        }
    }
    report_sized::<WORK_WORDS, TABLE_WORDS>(image, blocks, reply, room)
}

// The damage report of an image. `blocks` gets the list of the blocks entered, also those before a fault; `reply` gets the other
// fields, with the audit's answer first. 0 is returned, or 13 where the reply is too short.
pub fn report_bytes(image: &[u8], blocks: &mut [u8], reply: &mut [u8]) -> u32
    ensures { ◌≡◌ {A = CReply} (record { number = result; list = blocks.new; reply = reply.new })
        (c_report image.now (length blocks.old) (length reply.old)) }
{
    if reply.len() / 8 < REPLY_WORDS {
        front::clear_both(blocks, reply);
        return front::NO_ROOM;
    }
    let room = walk::blocks::room(blocks.len() / 8);
    report_in(image, blocks, reply, room);
    0
}
