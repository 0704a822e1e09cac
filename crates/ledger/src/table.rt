// The table as two lists that the caller lends: the address of each object, with what a search needs behind them, and the
// number of links to it and of sharings of it.
ghost use Rattle.std.specs.Prelude.{◌+◌, ◌^◌, ◌<◌, ◌≡◌, None};
ghost use Rattle.ledger.specs.Links.{link_sum};
ghost use Rattle.ledger.specs.Index.{Indexed, Sought, Addable, Added};
ghost use Rattle.ledger.specs.Table.{linked_of, Table, Discovered, Started};
ghost use Rattle.ledger.specs.Objects.{found_count, SameTable};

use crate::search;
use crate::search::{ObjectList, Search};

// The table, and how many objects it has.
#[derive(Drop)]
pub struct Objects<'a> {
    pub addresses: &'a mut [u64],
    pub counts: &'a mut [u32],
    pub count: usize,
}

impl Objects<'_> {
    // Searches for an address among those of the objects.
    pub fn find(&self, address: u64) -> Search
        requires { Indexed self.now.addresses.now self.now.count }
        ensures { Sought self.now.addresses.now self.now.count address 2 result }
    {
        let objects = ObjectList {
            addresses: &*self.addresses,
            count: self.count,
        };
        objects.find(address)
    }

    // Puts the address of a new object behind those in use and its number into the order, and makes it the guess. Nothing is compared: a
    // search has ended. Its links are not counted here.
    pub fn add(&mut self, address: u64, order: usize)
        requires { Addable self.old.addresses.now self.old.count address order }
        ensures added { Added self.old.addresses.now self.old.count address self.new.addresses.now }
        ensures one_more { self.new.count ≡ self.old.count + 1 }
        ensures same_counts { self.new.counts.now ≡ self.old.counts.now }
        ensures kept { SameTable self.old self.new }
    {
        let from = format::the_limits().objects_most;
        let objects = self.count;
        let addresses = &mut *self.addresses;
        addresses[objects] = address;
        let numbers = &mut addresses[from..from + objects + 1];
        ordering::insert(numbers, order, objects as u64);
        search::remember(addresses, address, objects);
        self.count = objects + 1;
    }

    // Counts a hard link to the address, or a sharing of it, where a search for the address ended: one more for an object of
    // the table, or a new object with one. Nothing where the table holds as many as it may.
    pub fn count_at(&mut self, address: u64, found: Search) -> Option<()>
        requires table { Table self.old.addresses.now self.old.counts.now self.old.count }
        requires counts_bound { link_sum (linked_of self.old.count self.old.addresses.now self.old.counts.now) + 1 < 2 ^ 32 }
        requires sought { Sought self.old.addresses.now self.old.count address 2 found }
        ensures discovered { Discovered self.old.addresses.now self.old.counts.now self.old.count address self.new.addresses.now
            self.new.counts.now (found_count self.new.count result) }
        ensures full { result ≡ None → self.new.count ≡ self.old.count }
        ensures kept { SameTable self.old self.new }
    {
        if let Some(object) = found.object {
            self.counts[object] += 1;
            search::remember(self.addresses, address, object);
            return Some(());
        }
        let limits = format::the_limits();
        let objects = self.count;
        if limits.objects_most <= objects {
            return None;
        }
        self.add(address, found.order);
        self.counts[objects] = 1;
        Some(())
    }

    // Counts a hard link to the address, or a sharing of it.
    pub fn discover(&mut self, address: u64) -> Option<()>
        requires table { Table self.old.addresses.now self.old.counts.now self.old.count }
        requires counts_bound { link_sum (linked_of self.old.count self.old.addresses.now self.old.counts.now) + 1 < 2 ^ 32 }
        ensures discovered { Discovered self.old.addresses.now self.old.counts.now self.old.count address self.new.addresses.now
            self.new.counts.now (found_count self.new.count result) }
        ensures full { result ≡ None → self.new.count ≡ self.old.count }
        ensures kept { SameTable self.old self.new }
    {
        let found = self.find(address);
        self.count_at(address, found)
    }

    // Makes the table that of one object, the root, with one link: the superblock's root entry.
    pub fn start(&mut self, root: u64)
        requires { Table self.old.addresses.now self.old.counts.now 0 }
        ensures started { Started self.old.addresses.now self.old.counts.now root self.new.addresses.now self.new.counts.now }
        ensures count { self.new.count ≡ 1 }
        ensures kept { SameTable self.old self.new }
    {
        self.count = 0;
        self.add(root, 0);
        self.counts[0] = 1;
    }
}
