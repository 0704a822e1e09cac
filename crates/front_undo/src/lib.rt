// Undo on byte slices.
#![tactic(auto)]

ghost use Rattle.std.specs.Prelude.{◌≡◌, length};
ghost use Rattle.format.specs.Front.{CUndo, c_undo};

// The words of the reply: the writes.
const REPLY_WORDS: usize = 1;

// Undo by a log of bytes. `reply` gets the writes; the number is returned. Where it isn't 0 the image stays.
pub fn undo_bytes(image: &mut [u8], log: &[u8], reply: &mut [u8], entries: u64, limit: u64) -> u32
    ensures { ◌≡◌ {A = CUndo} (record { number = result; reply = reply.new; image = image.new })
        (c_undo image.old log.now (length reply.old) entries limit) }
{
    if reply.len() / 8 < REPLY_WORDS {
        words::clear_from(reply, 0);
        return front::NO_ROOM;
    }
    match undo::undo(image, log, entries, limit) {
        Err(number) => {
            words::clear_from(reply, 0);
            number as u32
        }
        Ok(writes) => {
            let words = [writes];
            words::spill(&words, reply);
            0
        }
    }
}
