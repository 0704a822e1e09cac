// Path lookup: the kind and the address of what a path leads to.
ghost use Rattle.std.specs.Prelude.{◌≡◌, ℕ, ◌≤◌, length, replicate};
ghost use Rattle.format.specs.Blocks.{room_of};
ghost use Rattle.walk.specs.Lent.{places_of};
ghost use Rattle.format.specs.Answers.{lookup as lookup_reply};
ghost use Rattle.object.specs.Object.{Bounded};
ghost use Rattle.lookup.specs.Lookup.{reply_of, LocatedIs};

use component::Target;
use follow;
use format::{NO_PLACE, Refusal, answers};
use last_object;
use superblock::Superblock;
use walk::blocks;
use walk::blocks::WORK_WORDS;

// The number of document 01 for a symbolic link.
const SYMBOLIC_LINK: u8 = 4;

// The kind and the address of what a path leads to.
#[derive(Clone, Copy)]
pub struct Located {
    pub kind: u8,
    pub address: u64,
}

// The lookup in an opened image. The list still holds the blocks of the last walk.
fn locate(
    image: &[u8],
    path: &[u8],
    list: &mut [u64],
    superblock: Superblock,
) -> Result<Located, Refusal>
    requires bounded { Bounded image.now superblock }
    requires in_bounds { 1 ≤ length path.now }
    ensures { (lent : ℕ) → room_of lent ≡ places_of (length list.old) →
        LocatedIs image.now path.now lent superblock result }
{
    match follow::find_object(image, path, list, superblock)? {
        Target::Symbolic => Ok(Located {
            kind: SYMBOLIC_LINK,
            address: 0,
        }),
        Target::Object(address) => {
            let room = blocks::places(list.len());
            let kind = last_object::kind_at(image, list, superblock, room, address)?;
            Ok(Located { kind, address })
        }
    }
}

// Looks a path up in a working list, which still holds the blocks of the last walk at the end.
pub fn lookup_in(image: &[u8], path: &[u8], list: &mut [u64]) -> Result<Located, Refusal>
    ensures { (lent : ℕ) → room_of lent ≡ places_of (length list.old) → reply_of (replicate lent 0) result ≡
        lookup_reply image.now path.now lent }
{
    if !path::is_sound(path) {
        return Err(Refusal::Fault(answers::BAD_PATH, NO_PLACE));
    }
    let superblock = superblock::open(image).map_err(|answer| Refusal::Fault(answer, 0))?;
    locate(image, path, list, superblock)
}

// Looks a path up. The list is lent for the blocks of each walk and is all zeros at the end.
// It hands no block over, so that it has no more than the list in common with the other calls.
pub fn lookup(image: &[u8], path: &[u8], list: &mut [u64]) -> Result<Located, Refusal>
    ensures { reply_of list.new result ≡ lookup_reply image.now path.now (length list.old) }
{
    let mut work = [0u64; WORK_WORDS];
    let n = blocks::work_words(blocks::room(list.len()));
    let found = lookup_in(image, path, &mut work[..n]);
    blocks::clear_from(list, 0);
    found
}
