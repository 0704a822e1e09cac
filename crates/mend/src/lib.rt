// Mending: the counts that an audit finds wrong are set right, after a log that can undo this is written whole.
#![tactic(auto)]

ghost use Rattle.std.specs.Prelude.{◌≡◌, ℕ, min, ◌≤◌, length, IfOk};
ghost use Rattle.format.specs.Blocks.{room_of};
ghost use Rattle.walk.specs.Lent.{places_of, handed};
ghost use Rattle.mend.specs.Mended.{blocks_mended, MendIs};

use format::{NO_PLACE, Refusal, answers};
use ledger::report;
use walk::blocks;
use walk::blocks::WORK_WORDS;

// The numbers of blocks entered, of entries in the log and of counts written.
#[derive(Clone, Copy)]
pub struct Mended {
    pub block_count: usize,
    pub entries: usize,
    pub writes: usize,
}

fn least(limit: u64, entries: usize) -> usize
    ensures { result ≡ min limit entries }
{
    limit.min(entries as u64) as usize
}

// Mends an image, with the audit in a working list, which has its blocks at its head. The log is lent for the entries, two words each,
// and is all zeros with a refusal. No more than `limit` counts are written, and none before the whole log stands.
pub fn mend_in(
    image: &mut [u8],
    list: &mut [u64],
    log: &mut [u64],
    limit: u64,
) -> Result<Mended, Refusal>
    ensures block_count_bound { IfOk result (λ m. m.block_count ≤ places_of (length list.old)) }
    ensures by_index { (lent : ℕ) → room_of lent ≡ places_of (length list.old) → MendIs image.old lent (length log.old) limit
        (handed lent (blocks_mended result) list.new) log.new image.new result }
{
    blocks::clear_from(log, 0);
    let mut ledger = report::empty();
    let block_count = audit::audit_in(image, list, &mut ledger)?;
    let entries = undo_log::wrong(&ledger);
    if log.len() / 2 < entries {
        return Err(Refusal::Fault(answers::LOG_TOO_SHORT, NO_PLACE));
    }
    undo_log::write_log(log, &ledger);
    let writes = least(limit, entries);
    undo_log::perform(image, &log[..writes + writes]);
    Ok(Mended {
        block_count,
        entries,
        writes,
    })
}

// Mends an image. The list is lent for the audit's blocks, four words a block, and is all zeros with a refusal.
// One function for such calls would take this one as a closure, and a trait for the count of its blocks: no plainer than these lines.
pub fn mend(
    image: &mut [u8],
    list: &mut [u64],
    log: &mut [u64],
    limit: u64,
) -> Result<Mended, Refusal>
    ensures { MendIs image.old (length list.old) (length log.old) limit list.new log.new
        image.new result }
{
    let mut work = [0u64; WORK_WORDS];
    let n = blocks::work_words(blocks::room(list.len()));
    match mend_in(image, &mut work[..n], log, limit) {
        Ok(mended) => {
            blocks::hand_over(list, &work, mended.block_count);
            Ok(mended)
        }
        Err(refusal) => {
            blocks::clear_from(list, 0);
            Err(refusal)
        }
    }
}
