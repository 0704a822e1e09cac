// Sharings: what an attribute or a dataset shares is counted as an object, and a mark of each object says what is known of
// it. The marks stand beside the table of objects, in the same order. At a header's messages the audit discovers sharings, and
// a lookup does nothing.
#![tactic(auto)]

ghost use Rattle.std.specs.Prelude.{ℕ, ◌<◌, ◌≡◌, List, length, OnOk};
ghost use Rattle.format.specs.Blocks.{Block};
ghost use Rattle.format.specs.Header.{pass_over};
ghost use Rattle.format.specs.Message.{Message};
ghost use Rattle.format.specs.Result as reader;
ghost use Rattle.format.specs.Sharing as definitions;
ghost use Rattle.laws.proofs.Disjoint.{fresh-append};
ghost use Rattle.laws.proofs.Growth.{inside-append};
ghost use Rattle.laws.proofs.SumOfLengths.{lengths-append, lengths-inside};
ghost use Rattle.walk.specs.Entered.{with_count};
ghost use Rattle.sharing.specs.Sharing.{Tables, Shared, TypeShared, KindKnown};
ghost use Rattle.sharing.specs.Lent.{SameFound, found_in, TablesIn, KeptIn, CountingIn};
ghost use Rattle.sharing.specs.Visit.{Visited, Lasts, Counts};
ghost use Rattle.sharing.specs.VisitLaws.{found_lasts, found_counts, nothing_lasts, nothing_counts};

use datatype::Datatype;
use format::answers;
use ledger::table::Objects;

// A sharing gave the object's address. The marks stay numbers: the definition `Found` has a list of numbers, and a list of
// bytes is lent for them.
pub const SHARED: u8 = 1;

// The object's kind is known, and it isn't a committed datatype.
pub const OTHER_KIND: u8 = 2;

// What an audit has found: the objects, and a mark of each.
#[derive(Drop)]
pub struct Found<'a, 'b> {
    pub objects: &'a mut Objects<'b>,
    pub marks: &'a mut [u8],
}

impl Found<'_, '_> {
    // Counts a sharing of the address and marks the object: 12 for an object too many, 10 for one of another kind.
    pub fn share(&mut self, address: u64) -> Result<(), u8>
        requires { Tables self.old.objects.now.addresses.now self.old.objects.now.counts.now self.old.marks.now self.old.objects.now.count 1 }
        ensures shared { Shared self.old.objects.now.addresses.now self.old.objects.now.counts.now self.old.marks.now self.old.objects.now.count address
            self.new.objects.now.addresses.now self.new.objects.now.counts.now self.new.marks.now (with_count result self.new.objects.now.count) }
        ensures kept { SameFound self.old self.new }
    {
        let objects = &mut *self.objects;
        let count = objects.count;
        let found = objects.find(address);
        let place = found.object.unwrap_or(count);
        objects
            .count_at(address, found)
            .ok_or(answers::TOO_MANY_OBJECTS)?;
        let other = self.marks[place] == OTHER_KIND;
        if other {
            return Err(answers::HEADER_UNSOUND);
        }
        self.marks[place] = SHARED;
        Ok(())
    }

    // What a dataset's datatype shares is counted; a datatype of its own shares nothing.
    pub fn share_type(&mut self, datatype: Datatype) -> Result<(), u8>
        requires { Tables self.old.objects.now.addresses.now self.old.objects.now.counts.now self.old.marks.now self.old.objects.now.count 1 }
        ensures shared { TypeShared self.old.objects.now.addresses.now self.old.objects.now.counts.now self.old.marks.now self.old.objects.now.count datatype
            self.new.objects.now.addresses.now self.new.objects.now.counts.now self.new.marks.now (with_count result self.new.objects.now.count) }
        ensures kept { SameFound self.old self.new }
    {
        match datatype {
            Datatype::Shared(address) => self.share(address),
            Datatype::Own { .. } => Ok(()),
        }
    }

    // Marks the object at a place as one of another kind. Whether no sharing gave its address before; else the answer is 10.
    pub fn not_committed(&mut self, place: usize) -> bool
        requires { place < length self.old.marks.now }
        ensures known { KindKnown self.old.marks.now place self.new.marks.now result }
        ensures objects { self.new.objects ≡ self.old.objects }
        ensures kept { SameFound self.old self.new }
    {
        let shared = self.marks[place] == SHARED;
        if shared {
            return false;
        }
        self.marks[place] = OTHER_KIND;
        true
    }
}

// What is done at a message of a header that has passed its checks, with what was found so far. The header's reader knows no
// more of it than these clauses and laws.
pub trait MessageVisitor {
    // What was found so far, as the definitions have it.
    ghost State: { Type 0 };

    ghost state: { Self → State };

    // The definition of what is done.
    ghost visit: { Message → State → reader.Result State };

    // There is room for so many more of what is counted.
    ghost Room: { Self → ℕ → Type 0 };

    // So many more were counted at most.
    ghost Kept: { Self → ℕ → Self → Type 0 };

    // What is counted is bounded by the blocks entered below an end of file, with so many bytes to spare.
    ghost Counting: { Self → ℕ → List Block → ℕ → Type 0 };

    // The same lists are lent.
    ghost Same: { Self → Self → Type 0 };

    // Visits a message of the type `kind`.
    fn visit_message(&mut self, body: &[u8], kind: u64) -> Result<(), u8>
        requires { Room self.old 1 }
        ensures visited { Visited visit kind body.now (state self.old) (state self.new) result }
        ensures counted { OnOk result (Kept self.old 1 self.new) }
        ensures same { Same self.old self.new };

    ghost lasts: { Lasts Same };

    ghost counts: { Counts Room Kept Counting };
}

// The audit discovers what an attribute shares.
impl MessageVisitor for Found<'_, '_> {
    ghost State = { definitions.Found };

    ghost state = { found_in };

    ghost visit = { definitions.discover_sharing };

    ghost Room = { TablesIn };

    ghost Kept = { KeptIn };

    ghost Counting = { CountingIn };

    ghost Same = { SameFound };

    ghost lasts = { found_lasts };

    ghost counts = { found_counts (record { apart = fresh-append; inside = inside-append; lengths = lengths-append; lengths_inside = lengths-inside }) };

    fn visit_message(&mut self, body: &[u8], kind: u64) -> Result<(), u8> {
        let passed_by = kind != 0x000c;
        if passed_by {
            return Ok(());
        }
        match attribute::read(body)? {
            Some(address) => self.share(address),
            None => Ok(()),
        }
    }
}

// Nothing is done: a header is read for its kind alone.
#[derive(Drop)]
pub struct PassOver;

impl MessageVisitor for PassOver {
    ghost State = { Unit {0} };

    ghost state = { λ v. tt };

    ghost visit = { pass_over };

    ghost Room = { λ v n. Unit {0} };

    ghost Kept = { λ v n w. Unit {0} };

    ghost Counting = { λ v eof bs n. Unit {0} };

    ghost Same = { λ v w. Unit {0} };

    ghost lasts = { nothing_lasts };

    ghost counts = { nothing_counts };

    fn visit_message(&mut self, _body: &[u8], _kind: u64) -> Result<(), u8> {
        Ok(())
    }
}
