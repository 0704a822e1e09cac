// The lines of a sound file.
use ledger::report::Ledger;
use std::fmt;

// Where the count stands in an object's header.
const COUNT_OFFSET: u64 = 4;

// The line of an object that stores a count other than its true one.
#[derive(Clone, Copy)]
struct WrongCount {
    number: usize,
    address: u64,
    stored: u32,
    links: u32,
}

impl fmt::Display for WrongCount {
    fn fmt<W: fmt::Write>(&self, f: &mut fmt::Formatter<W>) -> fmt::Result {
        let number = self.number;
        let address = self.address;
        let place = address.wrapping_add(COUNT_OFFSET);
        let stored = self.stored;
        let links = self.links;
        writeln!(
            f,
            "object {number} at {address:016x}: count at {place:016x} is {stored}, links {links}"
        )
    }
}

// The number of objects, blocks and wrong counts, and then where each wrong count stands.
#[derive(Clone, Copy)]
pub struct Sound<'a> {
    pub block_count: usize,
    pub ledger: &'a Ledger,
}

impl fmt::Display for Sound<'_> {
    fn fmt<W: fmt::Write>(&self, f: &mut fmt::Formatter<W>) -> fmt::Result {
        let ledger = self.ledger;
        let objects = ledger.objects;
        let blocks = self.block_count;
        let counts = ledger.stored.iter().zip(&ledger.true_counts);
        let wrong = counts
            .take(objects)
            .filter(|(stored, links)| stored != links)
            .count();
        writeln!(
            f,
            "sound: {objects} objects, {blocks} blocks, {wrong} wrong counts"
        )?;
        let counts = ledger.stored.iter().zip(&ledger.true_counts);
        for (number, (address, (stored, links))) in ledger
            .addresses
            .iter()
            .zip(counts)
            .take(objects)
            .enumerate()
        {
            if stored != links {
                let line = WrongCount {
                    number,
                    address: *address,
                    stored: *stored,
                    links: *links,
                };
                write!(f, "{line}")?;
            }
        }
        Ok(())
    }
}
