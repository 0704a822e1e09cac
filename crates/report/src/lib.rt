// The damage report: the audit's answer and, of a file that it refuses, the damaged block.
#![tactic(auto)]

ghost use Rattle.std.specs.Prelude.{◌≡◌, ℕ, ◌*◌, ◌≤◌, length, take, replicate};
ghost use Rattle.format.specs.Limits.{objects_most};
ghost use Rattle.format.specs.Bytes.{undefined_address};
ghost use Rattle.format.specs.Blocks.{no_object, block_words, room_of};
ghost use Rattle.walk.specs.Lent.{blocks_of, places_of, handed};
ghost use Rattle.object.specs.Object.{Bounded};
ghost use Rattle.audit.specs.Audit.{Lists};
ghost use Rattle.report.specs.Report.{reply_with, LedgerOf, fields_of, refused_fields, unopened_fields, ReportedOpened, ReportedIs, ReportIs};

use damaged_block::block::{ListedBlock, damage_place, damaged, no_block, superblock_head};
use damaged_block::entered::{count_entered, fill_undefined};
use format::{Refusal, answers, met_of, number_of};
use ledger::report::{Ledger, copy_addresses, empty, read_stored};
use ledger::search::TABLE_WORDS;
use superblock::Superblock;
use walk::blocks;
use walk::blocks::WORK_WORDS;
use walk::numbers::UNDEFINED_ADDRESS;

// The audit's answer; how many blocks were entered; the place of the fault and the damaged block, zeros of a sound file; with 6
// the first block met; and the number of objects, 0 where the answer isn't 0. No Result: the blocks entered are left with either, and C's reply, which
// the definition gives, has a place and a block of a sound file too.
#[derive(Clone, Copy)]
pub struct Reported {
    pub answer: u8,
    pub block_count: usize,
    pub place: u64,
    pub block: ListedBlock,
    pub met: u64,
    pub objects: usize,
}

// The report of an image that can't be opened.
fn unopened(number: u8) -> Reported
    ensures { fields_of result ≡ unopened_fields number }
{
    Reported {
        answer: number,
        block_count: 0,
        place: 0,
        block: superblock_head(number),
        met: 0,
        objects: 0,
    }
}

// The report of a file whose walk is refused: the blocks that were entered before stand at the head of the list. Their number is reported too, so that
// it is given with the list.
fn refused(list: &[u64], entered: usize, refusal: Refusal) -> Reported
    requires entered_in_bounds { 4 * entered ≤ length list.now }
    requires list_value { take (4 * entered) list.now ≡ block_words no_object (blocks_of entered list.now) }
    ensures { fields_of result ≡ refused_fields entered (blocks_of entered list.now) refusal }
{
    Reported {
        answer: number_of(refusal),
        block_count: entered,
        place: damage_place(refusal),
        block: damaged(&list[..4 * entered], refusal),
        met: met_of(refusal),
        objects: 0,
    }
}

// The report of an image that can be opened, in a list filled with the undefined address: so how many blocks were entered before a refusal is found in it.
// The lists are a caller's own. A value of them would need a clause in each contract that the same lists are lent still: no plainer than these parameters.
fn report_opened(
    image: &[u8],
    list: &mut [u64],
    addresses: &mut [u64],
    stored: &mut [u32],
    true_counts: &mut [u32],
    superblock: Superblock,
) -> Reported
    requires bounded { Bounded image.now superblock }
    requires lists { Lists addresses.old stored.old true_counts.old }
    requires filled { list.old ≡ replicate (length list.old) undefined_address }
    ensures block_count_bound { result.block_count ≤ places_of (length list.old) }
    ensures by_index { (lent : ℕ) → ReportedOpened image.now (places_of (length list.old)) lent superblock
        (handed lent result.block_count list.new) addresses.new stored.new true_counts.new result }
{
    match audit::walk_image(image, list, addresses, true_counts, superblock) {
        Err(refusal) => refused(list, count_entered(list), refusal),
        Ok(read) => {
            read_stored(image, &addresses[..read.objects], stored);
            Reported {
                answer: answers::DONE,
                block_count: read.block_count,
                place: 0,
                block: no_block(),
                met: 0,
                objects: read.objects,
            }
        }
    }
}

// The report in a working list, with the table of objects and the stored counts lent, as the audit has them. The list has the blocks
// entered at its head, also those before a fault.
pub fn report_into(
    image: &[u8],
    list: &mut [u64],
    addresses: &mut [u64],
    stored: &mut [u32],
    true_counts: &mut [u32],
) -> Reported
    requires { Lists addresses.old stored.old true_counts.old }
    ensures block_count_bound { result.block_count ≤ places_of (length list.old) }
    ensures by_index { (lent : ℕ) → room_of lent ≡ places_of (length list.old) → ReportedIs image.now lent
        (handed lent result.block_count list.new) addresses.new stored.new true_counts.new result }
{
    match superblock::open(image) {
        Err(answer) => unopened(answer),
        Ok(superblock) => {
            fill_undefined(list);
            report_opened(image, list, addresses, stored, true_counts, superblock)
        }
    }
}

// The same in a list that is filled already: two functions, so that no list is filled twice.
fn report_filled(
    image: &[u8],
    list: &mut [u64],
    addresses: &mut [u64],
    stored: &mut [u32],
    true_counts: &mut [u32],
) -> Reported
    requires lists { Lists addresses.old stored.old true_counts.old }
    requires filled { list.old ≡ replicate (length list.old) undefined_address }
    ensures block_count_bound { result.block_count ≤ places_of (length list.old) }
    ensures by_index { (lent : ℕ) → room_of lent ≡ places_of (length list.old) → ReportedIs image.now lent
        (handed lent result.block_count list.new) addresses.new stored.new true_counts.new result }
{
    match superblock::open(image) {
        Err(answer) => unopened(answer),
        Ok(superblock) => { report_opened(image, list, addresses, stored, true_counts, superblock) }
    }
}

// The report with the ledger of a sound file, which is empty of any other. No Result, as `Reported` is none.
#[derive(Drop)]
pub struct Reply {
    pub answer: u8,
    pub block_count: usize,
    pub place: u64,
    pub block: ListedBlock,
    pub met: u64,
    pub ledger: Ledger,
}

// Completes a reply with what is reported. Its ledger has the counts that the walk left, and gets the addresses at the head of the table; where no
// object is reported, the counts are cleared.
fn complete(reply: &mut Reply, reported: Reported, table: &[u64])
    requires objects_in_bounds { reported.objects ≤ length table.now }
    requires objects_le_objects_most { reported.objects ≤ objects_most }
    requires none { reply.old.ledger.objects ≡ 0 }
    requires zeros { reply.old.ledger.addresses ≡ replicate objects_most 0 }
    ensures fields { reply.new ≡ reply_with reported reply.new.ledger }
    ensures ledger { LedgerOf reported.objects table.now reply.old.ledger.stored reply.old.ledger.true_counts reply.new.ledger }
{
    let objects = reported.objects;
    reply.answer = reported.answer;
    reply.block_count = reported.block_count;
    reply.place = reported.place;
    reply.block = reported.block;
    reply.met = reported.met;
    if objects == 0 {
        reply.ledger.stored.fill(0);
        reply.ledger.true_counts.fill(0);
        return;
    }
    copy_addresses(&table[..objects], &mut reply.ledger.addresses);
    reply.ledger.objects = objects;
}

// The report of an image. The list is lent for the blocks, four words a block, and has them at the end, also those before a fault.
// One function for such calls would take this one as a closure, and a trait for the count of its blocks: no plainer than these lines.
pub fn report(image: &[u8], list: &mut [u64]) -> Reply
    ensures { ReportIs image.now (length list.old) list.new result }
{
    let mut objects_table = [0u64; TABLE_WORDS];
    let mut work = [UNDEFINED_ADDRESS; WORK_WORDS];
    let n = blocks::work_words(blocks::room(list.len()));
    let mut reply = Reply {
        answer: 0,
        block_count: 0,
        place: 0,
        block: no_block(),
        met: 0,
        ledger: empty(),
    };
    let r = report_filled(
        image,
        &mut work[..n],
        &mut objects_table,
        &mut reply.ledger.stored,
        &mut reply.ledger.true_counts,
    );
    blocks::hand_over(list, &work, r.block_count);
    complete(&mut reply, r, &objects_table);
    reply
}
