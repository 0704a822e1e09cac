// The header and the data segment of a local heap, entered as its walk enters them.
ghost use Rattle.std.specs.Prelude.{◌≤◌, length};
ghost use Rattle.format.specs.Walk.{run};
ghost use Rattle.walk.specs.Lent.{Lent, Walked, blocks_of};
ghost use Rattle.walk.specs.Entered.{SameWords};
ghost use Rattle.heap.specs.Header.{HeaderRead, open_walk, open_end, OpenedInside};

use format::{Refusal, answers};
use walk::blocks::{Blocks, Bounds};
use walk::kinds;
use walk::numbers::{u32_at, u64_at};

// The signature's four bytes as a number, the lowest first: "HEAP".
const HEAP: u64 = 0x50414548;

// A heap: the address and the size of its data segment, and the head of its free list.
#[derive(Clone, Copy)]
pub struct Heap {
    pub segment: usize,
    pub size: usize,
    pub head: u64,
}

// The fields of a header.
#[derive(Clone, Copy)]
struct Header {
    size: u64,
    head: u64,
    address: u64,
}

// The fields of a header that passes its tests, or the answer of the first that fails.
fn read_header(bytes: &[u8]) -> Result<Header, u8>
    requires { 32 ≤ length bytes.now }
    ensures { HeaderRead bytes.now result }
{
    if u32_at(bytes, 0) != HEAP {
        return Err(answers::WRONG_SIGNATURE);
    }
    if bytes[4] != 0 {
        return Err(answers::WRONG_SIGNATURE);
    }
    let size = u64_at(bytes, 8);
    if size < 8 {
        return Err(answers::HEAP_UNSOUND);
    }
    Ok(Header {
        size,
        head: u64_at(bytes, 16),
        address: u64_at(bytes, 24),
    })
}

// Enters the header and the segment of the heap at `at`.
pub fn open(image: &[u8], blocks: &mut Blocks<'_>, bounds: Bounds, at: u64) -> Result<Heap, Refusal>
    requires lent { Lent blocks.old.words.now blocks.old.count bounds.room }
    requires end_of_file_in_bounds { bounds.end_of_file ≤ length image.now }
    ensures walked { Walked blocks.old.words.now blocks.new.words.now (open_end image.now blocks.new.count result)
        (run image.now bounds.end_of_file bounds.room (open_walk at) (blocks_of blocks.old.count blocks.old.words.now)) }
    ensures opened_inside { OpenedInside image.now bounds.end_of_file result }
    ensures kept { SameWords blocks.old blocks.new }
{
    blocks.enter(bounds, kinds::HEAP, at, 32)?;
    let place = at as usize;
    let behind = place + 32;
    let header = read_header(&image[place..behind]).map_err(|answer| Refusal::Fault(
        answer, place,
    ))?;
    blocks.enter(bounds, kinds::SEGMENT, header.address, header.size)?;
    Ok(Heap {
        segment: header.address as usize,
        size: header.size as usize,
        head: header.head,
    })
}
