// The search for an address among those of the objects. A guess is tried first, where the list has guesses; what it misses is found
// in the order of the addresses, by halving.
ghost use Rattle.std.specs.Prelude.{◌≡◌};
ghost use Rattle.ledger.specs.Index.{guess_at, with_guess, Sorted, Indexed, Halving, Guessed, Sought};

use format::OBJECTS_MOST;
use ordering::halving;
use ordering::halving::Place;

// The guesses: four for each object, so that few addresses share one.
pub const GUESSES: usize = 4 * OBJECTS_MOST;

// The words of a list of addresses without guesses: for each object one for its address and one for its number in the order. That is
// enough for a small file, where a longer list costs more than its guesses save.
pub const INDEX_WORDS: usize = 2 * OBJECTS_MOST;

// The words of a list of addresses with guesses.
pub const TABLE_WORDS: usize = INDEX_WORDS + GUESSES;

// Where the guess for an address stands. Most headers lie at multiples of 8.
fn guess_at(address: u64) -> usize
    ensures { result ≡ guess_at address }
{
    let spread = address / 8 + address / (8 * GUESSES as u64);
    INDEX_WORDS + spread as usize % GUESSES
}

// The object with an address; where none has it, how many objects have a lower address, which is where a new one stands in the
// order. And how many addresses were compared at most.
#[derive(Clone, Copy)]
pub struct Search {
    pub object: Option<usize>,
    pub order: usize,
    pub tests: usize,
}

// The objects of a table: the list of their addresses, and how many there are.
#[derive(Clone, Copy)]
pub struct ObjectList<'a> {
    pub addresses: &'a [u64],
    pub count: usize,
}

impl ObjectList<'_> {
    // The object that the guess for an address is; none if that one has another address or there are no guesses.
    fn guessed(self, address: u64) -> Option<usize>
        requires { Indexed self.addresses.now self.count }
        ensures { Guessed self.entry.addresses.now self.entry.count address result }
    {
        let addresses = self.addresses;
        if addresses.len() < TABLE_WORDS {
            return None;
        }
        let guess = addresses[guess_at(address)] as usize;
        if self.count <= guess {
            return None;
        }
        if addresses[guess] != address {
            return None;
        }
        Some(guess)
    }

    // How many objects have an address below this one, in the order that begins at the word `from`.
    fn halve(self, from: usize, address: u64) -> Place
        requires { Sorted self.addresses.now from self.count }
        ensures { Halving self.entry.addresses.now from self.entry.count address result }
    {
        let addresses = self.addresses;
        halving::halve(self.count, |k| {
            let object = addresses[from + k] as usize;
            addresses[object] < address
        })
    }

    // Searches in the order: halves, and compares the address there.
    fn find_in_order(self, address: u64) -> Search
        requires { Indexed self.addresses.now self.count }
        ensures { Sought self.entry.addresses.now self.entry.count address 1 result }
    {
        let addresses = self.addresses;
        let from = format::the_limits().objects_most;
        let found = self.halve(from, address);
        let order = found.place;
        let tests = found.tests + 1;
        if order < self.count {
            let object = addresses[from + order] as usize;
            if addresses[object] == address {
                return Search {
                    object: Some(object),
                    order,
                    tests,
                };
            }
        }
        Search {
            object: None,
            order,
            tests,
        }
    }

    // Searches for an address. Of the objects in use no two have the same, so that a guess that has it is the one.
    pub fn find(self, address: u64) -> Search
        requires { Indexed self.addresses.now self.count }
        ensures { Sought self.entry.addresses.now self.entry.count address 2 result }
    {
        if let Some(object) = self.guessed(address) {
            return Search {
                object: Some(object),
                order: 0,
                tests: 1,
            };
        }
        let found = self.find_in_order(address);
        Search {
            tests: found.tests + 1,
            ..found
        }
    }
}

// Makes an object the guess for its address, where the list has guesses.
pub fn remember(addresses: &mut [u64], address: u64, object: usize)
    ensures { addresses.new ≡ with_guess addresses.old address object }
{
    if addresses.len() < TABLE_WORDS {
        return;
    }
    addresses[guess_at(address)] = object as u64;
}
