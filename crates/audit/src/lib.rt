// The link audit: counts the hard links and sharings that reach each object of a file.
#![tactic(auto)]

ghost use Rattle.std.specs.Prelude.{◌≡◌, ℕ, ◌≤◌, length, replicate, IfOk, OnErr};
ghost use Rattle.format.specs.Limits.{objects_most};
ghost use Rattle.format.specs.Blocks.{room_of};
ghost use Rattle.walk.specs.Lent.{places_of, handed};
ghost use Rattle.ledger.specs.Report.{Copied, Empty};
ghost use Rattle.ledger.specs.Table.{Table};
ghost use Rattle.object.specs.Object.{Bounded};
ghost use Rattle.audit.specs.Audit.{blocks_audited, blocks_replied, replied, ImageWalked, Lists, AuditedIs, AuditIs};

use format::{OBJECTS_MOST, Refusal};
use ledger::report;
use ledger::report::Ledger;
use ledger::search::TABLE_WORDS;
use ledger::table::Objects;
use objects;
use sharing::Found;
use superblock::{File, Superblock};
use walk::blocks;
use walk::blocks::{Blocks, WORK_WORDS};

// The numbers of blocks entered and of objects found.
#[derive(Clone, Copy)]
pub struct Audited {
    pub block_count: usize,
    pub objects: usize,
}

// The audit's walk, with the table of objects lent: the superblock, then all objects from the root on. The superblock's root entry is
// the root's first link, and nothing else is known of any object yet.
pub fn walk_image(
    image: &[u8],
    list: &mut [u64],
    addresses: &mut [u64],
    true_counts: &mut [u32],
    superblock: Superblock,
) -> Result<Audited, Refusal>
    requires bounded { Bounded image.now superblock }
    requires table { Table addresses.old true_counts.old 0 }
    ensures { ImageWalked image.now list.old superblock list.new addresses.new true_counts.new result }
{
    let file = File {
        image,
        superblock,
        room: blocks::places(list.len()),
    };
    let mut blocks = Blocks {
        words: list,
        count: 0,
    };
    superblock::enter_superblock(superblock, &mut blocks, file.room)?;
    let mut table = Objects {
        addresses,
        counts: true_counts,
        count: 0,
    };
    table.start(superblock.root);
    let mut marks = [0u8; OBJECTS_MOST];
    let mut found = Found {
        objects: &mut table,
        marks: &mut marks,
    };
    objects::read(file, &mut blocks, &mut found)?;
    Ok(Audited {
        block_count: blocks.count,
        objects: table.count,
    })
}

// The audit in a working list, with the table of objects and the stored counts lent: its objects stand at their heads, and its blocks at
// the head of the list. A refusal leaves in the list and in the table what it came to.
pub fn audit_into(
    image: &[u8],
    list: &mut [u64],
    addresses: &mut [u64],
    stored: &mut [u32],
    true_counts: &mut [u32],
) -> Result<Audited, Refusal>
    requires { Lists addresses.old stored.old true_counts.old }
    ensures block_count_bound { IfOk result (λ a. a.block_count ≤ places_of (length list.old)) }
    ensures by_index { (lent : ℕ) → room_of lent ≡ places_of (length list.old) → AuditedIs image.now lent
        (handed lent (blocks_audited result) list.new) addresses.new stored.new true_counts.new result }
{
    let superblock = superblock::open(image).map_err(|answer| Refusal::Fault(answer, 0))?;
    let audited = walk_image(image, list, addresses, true_counts, superblock)?;
    report::read_stored(image, &addresses[..audited.objects], stored);
    Ok(audited)
}

// The number of blocks entered, and the ledger.
#[derive(Drop)]
pub struct Reply {
    pub block_count: usize,
    pub ledger: Ledger,
}

// Fills a ledger with objects, of which the table has the addresses. Kept out of line, so that its list of addresses isn't on the stack while an audit walks.
#[inline(never)]
fn fill(
    ledger: &mut Ledger,
    table: &[u64],
    stored: &[u32; OBJECTS_MOST],
    true_counts: &[u32; OBJECTS_MOST],
)
    requires { length table.now ≤ objects_most }
    ensures copied { Copied table.now (replicate objects_most 0) (length table.now) ledger.new.addresses }
    ensures whole { ledger.new ≡ record { objects = length table.now; addresses = ledger.new.addresses; stored = stored.now; true_counts = true_counts.now } }
{
    let mut addresses = [0u64; OBJECTS_MOST];
    report::copy_addresses(table, &mut addresses);
    *ledger = Ledger {
        objects: table.len(),
        addresses,
        stored: *stored,
        true_counts: *true_counts,
    };
}

// Makes a ledger one of no object. Each list is cleared where it lies, so that no empty ledger is on the stack beside it.
fn clear(ledger: &mut Ledger)
    ensures { Empty ledger.new }
{
    ledger.objects = 0;
    ledger.addresses.fill(0);
    ledger.stored.fill(0);
    ledger.true_counts.fill(0);
}

// The audit of an image in a working list, which has its blocks at its head: their number. The ledger is lent, since a Result that holds it is
// copied, and a mending has no stack for two; it is empty with a refusal. It has the addresses alone, without what stands behind them in the table.
pub fn audit_in(image: &[u8], list: &mut [u64], ledger: &mut Ledger) -> Result<usize, Refusal>
    ensures block_count_bound { IfOk result (λ n. n ≤ places_of (length list.old)) }
    ensures by_index { (lent : ℕ) → room_of lent ≡ places_of (length list.old) → AuditIs image.now lent
        (handed lent (blocks_replied (replied ledger.new result)) list.new) (replied ledger.new result) }
    ensures refused { OnErr result (Empty ledger.new) }
{
    let mut objects_table = [0u64; TABLE_WORDS];
    let mut stored = [0u32; OBJECTS_MOST];
    let mut true_counts = [0u32; OBJECTS_MOST];
    match audit_into(
        image,
        list,
        &mut objects_table,
        &mut stored,
        &mut true_counts,
    ) {
        Ok(audited) => {
            let table = &objects_table[..audited.objects];
            fill(ledger, table, &stored, &true_counts);
            Ok(audited.block_count)
        }
        Err(refusal) => {
            clear(ledger);
            Err(refusal)
        }
    }
}

// The audit of an image. The list is lent for the blocks, four words a block, and is all zeros with a refusal.
// One function for such calls would take this one as a closure, and a trait for the count of its blocks: no plainer than these lines.
pub fn audit(image: &[u8], list: &mut [u64]) -> Result<Reply, Refusal>
    ensures { AuditIs image.now (length list.old) list.new result }
{
    let mut work = [0u64; WORK_WORDS];
    let n = blocks::work_words(blocks::room(list.len()));
    let mut ledger = report::empty();
    match audit_in(image, &mut work[..n], &mut ledger) {
        Ok(block_count) => {
            blocks::hand_over(list, &work, block_count);
            Ok(Reply {
                block_count,
                ledger,
            })
        }
        Err(refusal) => {
            blocks::clear_from(list, 0);
            Err(refusal)
        }
    }
}
