// Numbered things kept in an order, in a list of words. What the numbers stand for and what their order is no function here knows: a
// search has found the place, by `halving` with a test of its own.
#![tactic(auto)]

pub mod halving;

ghost use Rattle.std.specs.Prelude.{◌+◌, ◌-◌, ◌≤◌, ◌<◌, length};
ghost use Rattle.ordering.specs.Order.{Inserted};
ghost use Rattle.ordering.specs.Merge.{Held, MergedIn, Raised};

// Puts a word among the words, at `place`; those from there on move up by one, over the last.
pub fn insert(words: &mut [u64], place: usize, value: u64)
    requires { place < length words.old }
    ensures { Inserted words.old 0 (length words.old - 1) place value words.new }
{
    let last = words.len() - 1;
    for i in (place..last).rev() {
        words[i + 1] = words[i];
    }
    words[place] = value;
}

// Moves the words from `first` up to `last` up by so many places, the last first.
fn raise(words: &mut [u64], first: usize, last: usize, by: usize)
    requires first_le_last { first ≤ last }
    requires by_in_bounds { last + by ≤ length words.old }
    ensures { Raised words.old first last by words.new }
{
    for i in (first..last).rev() {
        words[i + by] = words[i];
    }
}

// Two orderings in one list: from `first` on the `count` numbers below `count`; from `second` on the `added` numbers behind these, counted
// from `count`; and from `places` on, for each of the second, how many of the first stand before it.
#[derive(Clone, Copy)]
pub struct Runs {
    pub first: usize,
    pub count: usize,
    pub second: usize,
    pub places: usize,
    pub added: usize,
}

// Merges the second run into the first, from the back. Nothing is compared: the places are known.
pub fn merge(words: &mut [u64], runs: Runs)
    requires { Held words.old runs }
    ensures { MergedIn words.old runs words.new }
{
    let mut left = runs.count;
    for k in (0..runs.added).rev() {
        let place = words[runs.places + k] as usize;
        raise(words, runs.first + place, runs.first + left, k + 1);
        words[runs.first + (place + k)] = runs.count as u64 + words[runs.second + k];
        left = place;
    }
}
