// Undo: writes the old counts of a mender's log back into the image. The log is bytes of any length, so that its words are read in place.
#![tactic(auto)]

ghost use Rattle.std.specs.Prelude.{◌≡◌, ◌≢◌, IfErr, true, ◌/◌, ◌≤◌, length};
ghost use Rattle.format.specs.Log.{changes, restored};
ghost use Rattle.format.specs.Undo.{fits as fits_image, all_fit, undo_number};
ghost use Rattle.format.specs.Answers.{undo as undo_reply};
ghost use Rattle.undo.specs.Reply.{change_of, reply_of, words_of, CheckedAs};

use format::answers;
use walk::numbers::{put_u32, u32_at, u64_at};

// A log's second word of an entry is the old count times this, plus the new count.
const OLD_UNIT: u64 = 4294967296;

// The bytes of an entry: its two words.
const ENTRY_BYTES: usize = 16;

// Whether an entry's field is inside the image and holds the old or the new count.
fn fits(image: &[u8], field: u64, word: u64) -> bool
    requires { 4 ≤ length image.now }
    ensures { result ≡ fits_image image.now (change_of field word) }
{
    if ((image.len() - 4) as u64) < field {
        return false;
    }
    let count = u32_at(image, field as usize);
    if count == word / OLD_UNIT {
        return true;
    }
    count == word % OLD_UNIT
}

// Whether all entries of a log fit the image.
fn all_fit(image: &[u8], log: &[u8]) -> bool
    requires { 4 ≤ length image.now }
    ensures { result ≡ all_fit image.now (changes (length log.now / 16) (words_of log.now)) }
{
    for i in 0..log.len() / ENTRY_BYTES {
        let field = u64_at(log, ENTRY_BYTES * i);
        let word = u64_at(log, ENTRY_BYTES * i + 8);
        if !fits(image, field, word) {
            return false;
        }
    }
    true
}

// Writes the old counts of a log's entries, last first. Fields may overlap, so that the order matters.
fn restore(image: &mut [u8], log: &[u8])
    requires { all_fit image.old (changes (length log.now / 16) (words_of log.now)) ≡ true }
    ensures { image.new ≡ restored image.old (changes (length log.now / 16) (words_of log.now)) }
{
    for i in (0..log.len() / ENTRY_BYTES).rev() {
        let field = u64_at(log, ENTRY_BYTES * i);
        let old = u64_at(log, ENTRY_BYTES * i + 8) / OLD_UNIT;
        put_u32(image, field as usize, old as u32);
    }
}

// Whether a log can be undone: if not, 1, 18 or 19, in this order.
fn check(image: &[u8], log: &[u8], entries: u64) -> Result<(), u8>
    ensures { CheckedAs (undo_number image.now (words_of log.now) entries) result }
{
    let limits = format::the_limits();
    if image.len() < limits.image_least {
        return Err(answers::LENGTH_OUT_OF_RANGE);
    }
    if limits.image_most < image.len() {
        return Err(answers::LENGTH_OUT_OF_RANGE);
    }
    // The bytes of all entries may not fit a word.
    if ((log.len() / ENTRY_BYTES) as u64) < entries {
        return Err(answers::LOG_TOO_SHORT);
    }
    if !all_fit(image, &log[..ENTRY_BYTES * entries as usize]) {
        return Err(answers::LOG_NOT_FITTING);
    }
    Ok(())
}

// Writes the old counts of the last `limit` of the log's first `entries` entries, or of all, and returns their number. Where it returns an answer it
// writes nothing. Bytes of the log that are no whole word aren't read.
pub fn undo(image: &mut [u8], log: &[u8], entries: u64, limit: u64) -> Result<u64, u8>
    ensures reply { reply_of image.new result ≡ undo_reply image.old (words_of log.now) entries limit }
    ensures refused { IfErr result (λ number. number ≢ 0) }
{
    check(image, log, entries)?;
    let writes = limit.min(entries);
    let first = ENTRY_BYTES * (entries - writes) as usize;
    restore(image, &log[first..ENTRY_BYTES * entries as usize]);
    Ok(writes)
}
