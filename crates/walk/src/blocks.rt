// The blocks entered, in a working list. A block has four words: its address, its length, the number of its kind and the number
// of the object that it was walked for. Behind the words of all blocks is their index.
ghost use Rattle.std.specs.Prelude.{◌≡◌, ℕ, Err, OnErr, ◌++◌, ◌+◌, ◌-◌, ◌*◌, ◌^◌, ◌<◌, ◌≤◌, min, length, take, replicate};
ghost use Rattle.format.specs.Limits.{blocks_most};
ghost use Rattle.format.specs.Blocks.{entry_answer, room_of};
ghost use Rattle.format.specs.declared.Refusal.TheVariants.{NotEntered};
ghost use Rattle.walk.specs.Lent.{Lent, blocks_of, places_of, work_words, handed, appended, entering, IsEntered};
ghost use Rattle.walk.specs.Entered.{with_count, SameWords};

use crate::owner::{last_owner, owner_after};
use block_index::adding::add;
use block_index::index::{BlockList, NewBlock, RUN_MOST, places_for};
use format::{BLOCKS_MOST, Refusal, answers};

// Sets the words from a place on to zero. `words::clear_from` does so with bytes: one function over both types would have to be given their
// zero and the law that a clone of it is the same number, and be longer than these two.
pub fn clear_from(words: &mut [u64], from: usize)
    requires { from ≤ length words.old }
    ensures { words.new ≡ take from words.old ++ replicate (length words.old - from) 0 }
{
    words[from..].fill(0);
}

fn at_most(places: usize) -> usize
    ensures { result ≡ min blocks_most places }
{
    format::the_limits().blocks_most.min(places)
}

// How many blocks a caller's list of so many words may hold.
pub fn room(words: usize) -> usize
    ensures { result ≡ room_of words }
{
    at_most(words / 4)
}

// How many blocks may be entered in a working list of so many words, which has an index too.
pub fn places(words: usize) -> usize
    ensures { result ≡ places_of words }
{
    at_most(places_for(words))
}

// The words of a working list for all blocks, and for so many.
pub const WORK_WORDS: usize = 5 * BLOCKS_MOST + 2 * RUN_MOST;

pub fn work_words(room: usize) -> usize
    requires { work_words room < 2 ^ 64 }
    ensures { result ≡ work_words room }
{
    5 * room + 2 * RUN_MOST
}

// Copies the words of so many blocks from a working list to a caller's, which gets zeros behind them. It is given their number and not a part
// of the list: every caller has the number, and would have to know that a block has four words.
pub fn hand_over(list: &mut [u64], work: &[u64], count: usize)
    requires count_in_bounds { 4 * count ≤ length list.old }
    requires count_in_bounds_2 { 4 * count ≤ length work.now }
    ensures { list.new ≡ handed (length list.old) count work.now }
{
    let used = 4 * count;
    list[..used].copy_from_slice(&work[..used]);
    clear_from(list, used);
}

// The refusal of a block that can't be entered.
pub fn not_entered(number: u8, kind: u8, at: u64, size: u64, met: u64) -> Refusal
    ensures { result ≡ NotEntered number kind at size met }
{
    Refusal::NotEntered {
        number,
        kind,
        at,
        size,
        met,
    }
}

// The refusal of a block that isn't inside.
fn outside(kind: u8, at: u64, size: u64) -> Result<(), Refusal>
    ensures { result ≡ Err (NotEntered 5 kind at size 0) }
{
    Err(not_entered(answers::OUTSIDE, kind, at, size, 0))
}

// The blocks entered, in a working list: its words, and how many blocks there are.
#[derive(Drop)]
pub struct Blocks<'a> {
    pub words: &'a mut [u64],
    pub count: usize,
}

// What a block that is entered keeps to: the end of file, and the room in the list.
#[derive(Clone, Copy)]
pub struct Bounds {
    pub end_of_file: u64,
    pub room: usize,
}

impl Blocks<'_> {
    // The blocks, for a search in their index.
    pub fn list(&self) -> BlockList<'_>
        ensures words { result.words.now ≡ self.now.words.now }
        ensures count { result.count ≡ self.now.count }
    {
        BlockList {
            words: &*self.words,
            count: self.count,
        }
    }

    // Writes a block behind the others, with the number of its object, and leaves their number.
    fn append(&mut self, kind: u8, at: u64, size: u64)
        requires { (room : ℕ) × Lent self.old.words.now self.old.count room × (self.old.count < room) }
        ensures written { self.new.words.now ≡ appended self.old.words.now self.old.count kind at size }
        ensures same_count { self.new.count ≡ self.old.count }
        ensures kept { SameWords self.old self.new }
    {
        let words = &mut *self.words;
        let first = 4 * self.count;
        let object = owner_after(last_owner(&words[..first]), kind);
        words[first] = at;
        words[first + 1] = size;
        words[first + 2] = kind as u64;
        words[first + 3] = object;
    }

    // Enters the block of `size` bytes at `at`: 5 if it isn't inside, 6 if it overlaps, 13 if there is no room.
    pub fn enter(&mut self, bounds: Bounds, kind: u8, at: u64, size: u64) -> Result<(), Refusal>
        requires { Lent self.old.words.now self.old.count bounds.room }
        ensures value { with_count result self.new.count ≡ entering (entry_answer bounds.end_of_file bounds.room
            (blocks_of self.old.count self.old.words.now) at size) kind at size (blocks_of self.old.count self.old.words.now) self.old.count }
        ensures entered { IsEntered (entry_answer bounds.end_of_file bounds.room (blocks_of self.old.count self.old.words.now) at size)
            self.old.words.now self.old.count kind at size self.new.words.now }
        ensures refused { OnErr result (self.new.count ≡ self.old.count) }
        ensures kept { SameWords self.old self.new }
    {
        let count = self.count;
        if bounds.end_of_file < at {
            return outside(kind, at, size);
        }
        if bounds.end_of_file - at < size {
            return outside(kind, at, size);
        }
        let new = NewBlock { at, size };
        let found = self.list().find(new);
        if found.met {
            let b = self.list().first_met(found, new);
            return Err(not_entered(answers::OVERLAP, kind, at, size, self.words[4 * b]));
        }
        if bounds.room <= count {
            return Err(not_entered(answers::NO_ROOM, kind, at, size, 0));
        }
        self.append(kind, at, size);
        add(self.words, count, found.first, found.second);
        self.count = count + 1;
        Ok(())
    }
}
