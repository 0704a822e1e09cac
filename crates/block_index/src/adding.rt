// A block put into the index.
ghost use Rattle.block_index.specs.Search.{Addable, Extended};

use crate::index::{RUN_MOST, places_for};

// Puts the block behind the `count` that are indexed, whose words are there already, in its places. No method of `BlockList`, whose words can
// only be read: a type for words that are written would be built for this one call and taken apart in it, which is no plainer.
pub fn add(blocks: &mut [u64], count: usize, first: usize, second: usize)
    requires { Addable blocks.old count first second }
    ensures { Extended blocks.old count blocks.new }
{
    let room = places_for(blocks.len());
    let recent = count % RUN_MOST;
    let second_from = 5 * room;
    let places_from = second_from + RUN_MOST;
    let numbers = &mut blocks[second_from..second_from + recent + 1];
    ordering::insert(numbers, second, recent as u64);
    let places = &mut blocks[places_from..places_from + recent + 1];
    ordering::insert(places, second, first as u64);
    if recent + 1 == RUN_MOST {
        ordering::merge(
            blocks,
            ordering::Runs {
                first: 4 * room,
                count: count - recent,
                second: second_from,
                places: places_from,
                added: RUN_MOST,
            },
        );
    }
}
