// The ledger that an audit hands out, and the stored counts of its objects.
ghost use Rattle.std.specs.Prelude.{◌≤◌, length};
ghost use Rattle.ledger.specs.Report.{Empty, Copied, Readable, StoredRead};

use format::OBJECTS_MOST;
use walk::numbers::u32_at;

// Of each object, in order of discovery, the address, the count stored in its header, and the number of links met. Unused
// places are zeros.
#[derive(Clone, Copy)]
pub struct Ledger {
    pub objects: usize,
    pub addresses: [u64; OBJECTS_MOST],
    pub stored: [u32; OBJECTS_MOST],
    pub true_counts: [u32; OBJECTS_MOST],
}

pub fn empty() -> Ledger
    ensures { Empty result }
{
    let addresses = [0u64; OBJECTS_MOST];
    let stored = [0u32; OBJECTS_MOST];
    let true_counts = [0u32; OBJECTS_MOST];
    Ledger {
        objects: 0,
        addresses,
        stored,
        true_counts,
    }
}

// Copies the addresses of objects, which stand at the head of the table, to the head of a list.
pub fn copy_addresses(table: &[u64], addresses: &mut [u64])
    requires { length table.now ≤ length addresses.old }
    ensures { Copied table.now addresses.old (length table.now) addresses.new }
{
    let objects = table.len();
    addresses[..objects].copy_from_slice(table);
}

// Reads the stored count of each object, 4 bytes behind its address.
pub fn read_stored(image: &[u8], addresses: &[u64], stored: &mut [u32])
    requires readable { Readable image.now addresses.now (length addresses.now) }
    requires stored_fit { length addresses.now ≤ length stored.old }
    ensures { StoredRead image.now addresses.now (length addresses.now) stored.old stored.new }
{
    for i in 0..addresses.len() {
        let at = addresses[i] as usize;
        stored[i] = u32_at(image, at + 4) as u32;
    }
}
