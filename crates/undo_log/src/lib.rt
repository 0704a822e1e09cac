// The undo log of a mending: the wrong counts of a ledger as entries of two words, and the writing of the first of them.
#![tactic(auto)]

ghost use Rattle.std.specs.Prelude.{◌≡◌, ◌++◌, ◌+◌, ◌*◌, ◌/◌, ◌^◌, ◌≤◌, length, take};
ghost use Rattle.format.specs.Limits.{objects_most};
ghost use Rattle.format.specs.Bytes.{padded};
ghost use Rattle.format.specs.Log.{log_words, changes, written};
ghost use Rattle.format.specs.Mend.{corrections};
ghost use Rattle.ledger.specs.Report.{counted_of};
ghost use Rattle.undo_log.specs.Entries.{correction, WrongCounts, NewsFit, CountsBelow, FieldsInside};

use ledger::report::Ledger;
use walk::{blocks, numbers};

// How many objects have a wrong count.
pub fn wrong(ledger: &Ledger) -> usize
    requires { ledger.now.objects ≤ objects_most }
    ensures { WrongCounts ledger.now result }
{
    let mut n: usize = 0;
    for i in 0..ledger.objects {
        if ledger.stored[i] != ledger.true_counts[i] {
            n += 1;
        }
    }
    n
}

// Writes the entry of an object behind the first n, if its count is wrong, and returns the number of entries then.
fn put_entry(log: &mut [u64], n: usize, address: u64, stored: u32, true_count: u32) -> usize
    requires address_bound { address + 8 ≤ 2 ^ 64 }
    requires true_count_in_bounds { 2 * (n + length (correction address stored true_count)) ≤ length log.old }
    ensures value { result ≡ n + length (correction address stored true_count) }
    ensures log_after { take (result + result) log.new ≡ take (n + n) log.old ++ log_words (correction address stored true_count) }
    ensures news_fit { NewsFit (correction address stored true_count) }
{
    if stored == true_count {
        return n;
    }
    log[n + n] = address + 4;
    log[n + n + 1] = stored as u64 * 4294967296 + true_count as u64;
    n + 1
}

// Writes the whole log: an entry for each wrong count, in the ledger's order, and zeros behind them.
pub fn write_log(log: &mut [u64], ledger: &Ledger)
    requires objects_le_objects_most { ledger.now.objects ≤ objects_most }
    requires counts_below { CountsBelow (2 ^ 64) ledger.now }
    requires ledger_in_bounds { 2 * length (corrections (counted_of ledger.now)) ≤ length log.old }
    ensures log_after { log.new ≡ padded (length log.old) (log_words (corrections (counted_of ledger.now))) }
    ensures news_fit { NewsFit (corrections (counted_of ledger.now)) }
{
    let mut n: usize = 0;
    for i in 0..ledger.objects {
        n = put_entry(
            log,
            n,
            ledger.addresses[i],
            ledger.stored[i],
            ledger.true_counts[i],
        );
    }
    let used = n + n;
    blocks::clear_from(log, used);
}

// Performs the entries of a log: the new count of each is written into its field.
pub fn perform(image: &mut [u8], log: &[u64])
    requires { FieldsInside (length image.old) (length log.now / 2) log.now }
    ensures { image.new ≡ written image.old (changes (length log.now / 2) log.now) }
{
    for i in 0..log.len() / 2 {
        let field = log[i + i] as usize;
        let counts = log[i + i + 1];
        numbers::put_u32(image, field, (counts % 4294967296) as u32);
    }
}
