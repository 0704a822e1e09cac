// What is done at an entry: the audit counts a hard link, a lookup compares the name.
#![tactic(auto)]

ghost use Rattle.std.specs.Prelude.{ℕ, ◌+◌, ◌^◌, ◌≤◌, ◌<◌, ◌≡◌, refl, List};
ghost use Rattle.format.specs.Bytes.{same_bytes};
ghost use Rattle.format.specs.Ledger.{discover, Linked};
ghost use Rattle.format.specs.Lookup.{compare_name, Link};
ghost use Rattle.ledger.specs.Links.{link_sum};
ghost use Rattle.ledger.specs.Table.{linked_of, Table};
ghost use Rattle.ledger.specs.Objects.{SameTable};
ghost use Rattle.visit.specs.Visit.{Visit, entry_of, visit_of, link_of, link_after};
ghost use mathlib.Core.Path.{◌∙◌};

use ledger::table::Objects;
use order::same;

// What the entries met so far say of the wanted name: no entry has it, or a hard link to this header address, or a symbolic link.
#[derive(Clone, Copy)]
pub enum Link {
    Absent,
    Hard(u64),
    Symbolic,
}

// An entry of a symbol table: its name, its type, and the address of its header.
#[derive(Clone, Copy)]
pub struct Entry<'a> {
    pub name: &'a [u8],
    pub kind: u64,
    pub header: u64,
}

// What is done at the entries of a group, one after the other.
pub trait Visitor {
    // What the definitions carry from entry to entry.
    ghost State: { Type 0 };

    // What was found so far.
    ghost found: { Self → State };

    // What is made of an entry.
    ghost visit: { Self → Visit State };

    // The hard links counted so far.
    ghost links: { Self → ℕ };

    // What holds before an entry and after it.
    ghost Ready: { Self → Type 0 };

    // The same lists are lent, for the same visit.
    ghost Same: { Self → Self → Type 0 };

    // The next entry. Nothing where that would be an object too many.
    fn visit(&mut self, entry: Entry<'_>) -> Option<()>
        requires ready { Ready self.old }
        requires links_bound { links self.old + 1 < 2 ^ 32 }
        ensures visited { visit_of (found self.new) result ≡ visit self.old (entry_of entry.entry) (found self.old) }
        ensures ready { Ready self.new }
        ensures links_bound { links self.new ≤ links self.old + 1 }
        ensures same { Same self.old self.new };

    ghost same_reflexive: { (v : Self) → Same v v };

    ghost same_transitive: { (u v w : Self) → Same u v → Same v w → Same u w };

    ghost same_visit: { (v w : Self) → Same v w → visit w ≡ visit v };
}

// Whether a name is the wanted one. Names of one group often begin alike, so that the last byte is compared first.
fn is_wanted(name: &[u8], wanted: &[u8]) -> bool
    ensures { result ≡ same_bytes name.now wanted.now }
{
    let n = name.len();
    if n != wanted.len() {
        return false;
    }
    if 0 < n && name[n - 1] != wanted[n - 1] {
        return false;
    }
    same(name, wanted)
}

// A lookup's answer after an entry.
fn compare(entry: Entry<'_>, wanted: &[u8], link: Link) -> Link
    ensures { result ≡ link_after entry.entry.name.now wanted.now entry.entry.kind entry.entry.header link }
{
    if !is_wanted(entry.name, wanted) {
        return link;
    }
    let hard = entry.kind <= 1;
    if hard {
        return Link::Hard(entry.header);
    }
    Link::Symbolic
}

// A lookup: the name that it looks for, and its answer so far. It counts no link.
#[derive(Drop)]
pub struct Wanted<'a> {
    pub name: &'a [u8],
    pub link: Link,
}

impl Visitor for Wanted<'_> {
    ghost State = { Link };

    ghost found = { λ w. link_of w.link };

    ghost visit = { λ w. compare_name w.name.now };

    ghost links = { λ w. 0 };

    ghost Ready = { λ w. Unit {0} };

    ghost Same = { λ v w. w.name ≡ v.name };

    fn visit(&mut self, entry: Entry<'_>) -> Option<()> {
        self.link = compare(entry, self.name, self.link);
        Some(())
    }

    ghost same_reflexive = { λ v. refl };

    ghost same_transitive = { λ u v w h k. k ∙ h };

    ghost same_visit = { λ v w h. rw h refl };
}

// An audit: the object of a hard link is discovered.
impl Visitor for Objects<'_> {
    ghost State = { List Linked };

    ghost found = { λ o. linked_of o.count o.addresses.now o.counts.now };

    ghost visit = { λ o. discover };

    ghost links = { λ o. link_sum (linked_of o.count o.addresses.now o.counts.now) };

    ghost Ready = { λ o. Table o.addresses.now o.counts.now o.count };

    ghost Same = { SameTable };

    fn visit(&mut self, entry: Entry<'_>) -> Option<()> {
        let symbolic = 1 < entry.kind;
        if symbolic {
            return Some(());
        }
        self.discover(entry.header)
    }

    ghost same_reflexive = { λ v. record { addresses = refl; counts = refl; addresses_long = refl; counts_long = refl } };

    ghost same_transitive = { λ u v w h k. record {
      addresses = k.addresses ∙ h.addresses;
      counts = k.counts ∙ h.counts;
      addresses_long = k.addresses_long ∙ h.addresses_long;
      counts_long = k.counts_long ∙ h.counts_long;
    } };

    ghost same_visit = { λ v w e. refl };
}
