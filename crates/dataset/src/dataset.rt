// The dataset walk: the three messages, each read whole, and the data's block.
ghost use Rattle.std.specs.Prelude.{◌≡◌, List, ℕ, ◌-◌};
ghost use Rattle.format.specs.Dataset.{read_type, data_walk, dataset_walk};
ghost use Rattle.format.specs.Layout.{read_layout};
ghost use Rattle.format.specs.Walk.{run};
ghost use Rattle.walk.specs.Lent.{Lent, Walked, blocks_of, entry_end};
ghost use Rattle.walk.specs.Entered.{with_count, SameWords};
ghost use Rattle.message.specs.Message.{message_of};
ghost use Rattle.dataspace.specs.Dataspace.{SpaceRead};
ghost use Rattle.datatype.specs.Datatype.{type_of, type_result};
ghost use Rattle.layout.specs.Layout.{layout_of, layout_result};
ghost use Rattle.dataset.specs.Dataset.{Inside, BodiesInside, SizesInside, StorageInside, body_of, dataset_of, data_fills};
ghost use Rattle.dataset.specs.Dataset.{parts_of, parts_walk, parts_result, PartsShaped, layout_walk, messages_read};
ghost use Rattle.dataset.specs.Dataset.{storage_of, dataset_end, DatasetShaped};

use dataspace::Dimensions;
use datatype::Datatype;
use format::{Refusal, answers};
use layout::Layout;
use message::{Bodies, Body};
use walk::blocks::{Blocks, Bounds};
use walk::kinds;
use walk::numbers::UNDEFINED_ADDRESS;

// What the messages say.
#[derive(Clone, Copy)]
pub struct Dataset {
    pub dimensions: Dimensions,
    pub datatype: Datatype,
    pub layout: Layout,
}

// What the first two of them say: the dataset before its layout.
#[derive(Clone, Copy)]
pub struct Parts {
    pub dimensions: Dimensions,
    pub datatype: Datatype,
}

// Where the message of a body stands: 8 bytes before it.
pub fn head_of(body: Body) -> usize
    ensures { result ≡ body.place - 8 }
{
    body.place.saturating_sub(8)
}

// Each reader is handed its message's body as a part of the image.
fn read_space(image: &[u8], body: Body) -> Result<Dimensions, u8>
    requires { Inside image.now body }
    ensures { SpaceRead (body_of image.now body) result }
{
    let place = body.place;
    let end = place + body.size;
    dataspace::read(&image[place..end])
}

fn read_type(image: &[u8], body: Body) -> Result<Datatype, u8>
    requires { Inside image.now body }
    ensures { type_result result ≡ read_type (message_of image.now 0x0003 body) }
{
    let place = body.place;
    let end = place + body.size;
    if body.flags / 2 % 2 == 1 {
        return datatype::read_shared(&image[place..end]);
    }
    datatype::read(&image[place..end])
}

fn read_layout(image: &[u8], body: Body) -> Result<Layout, u8>
    requires { Inside image.now body }
    ensures { layout_result result ≡ read_layout body.place (body_of image.now body) }
{
    let place = body.place;
    let end = place + body.size;
    layout::read(&image[place..end], place)
}

fn data_size(layout: Layout) -> u64
    ensures { result ≡ (layout_of layout).size }
{
    match layout {
        Layout::Compact { size, .. } | Layout::Contiguous { size, .. } => size,
    }
}

// Whether the elements take the data's size, for a datatype that isn't shared.
fn filled(image: &[u8], space: Body, dataset: Dataset) -> bool
    requires { SizesInside image.now space dataset }
    ensures { result ≡ data_fills (dataset_of (body_of image.now space) dataset) }
{
    match dataset.datatype {
        Datatype::Shared(_) => true,
        Datatype::Own { size, .. } => {
            let stored = data_size(dataset.layout);
            let place = space.place;
            let end = place + space.size;
            dataspace::fills(
                &image[place..end],
                dataset.dimensions.rank,
                size as u64,
                stored,
            )
        }
    }
}

// Reads the dataspace message and then the datatype message, each whole: what they say, or 3 or 11.
pub fn read_parts(image: &[u8], bodies: Bodies) -> Result<Parts, Refusal>
    requires inside { Inside image.now bodies.space }
    requires inside_2 { Inside image.now bodies.datatype }
    ensures result_value { parts_result (body_of image.now bodies.space) result
        ≡ parts_walk (message_of image.now 0x0001 bodies.space) (message_of image.now 0x0003 bodies.datatype) }
    ensures parts_shaped { PartsShaped (body_of image.now bodies.space) result }
{
    let dimensions = read_space(image, bodies.space).map_err(|answer| Refusal::Fault(
        answer,
        head_of(bodies.space),
    ))?;
    let datatype = read_type(image, bodies.datatype).map_err(|answer| Refusal::Fault(
        answer,
        head_of(bodies.datatype),
    ))?;
    Ok(Parts {
        dimensions,
        datatype,
    })
}

// Reads the layout message behind the other two, and compares the data's size: what all three say, or 3 or 11.
fn messages(image: &[u8], bodies: Bodies, parts: Parts) -> Result<Dataset, Refusal>
    requires { StorageInside image.now bodies.space parts bodies.layout }
    ensures result_value { messages_read (body_of image.now bodies.space) result
        ≡ layout_walk (parts_of (body_of image.now bodies.space) parts).space (type_of parts.datatype)
        (message_of image.now 0x0008 bodies.layout) }
    ensures dataset_shaped { DatasetShaped (body_of image.now bodies.space) result }
{
    let layout = read_layout(image, bodies.layout).map_err(|answer| Refusal::Fault(
        answer,
        head_of(bodies.layout),
    ))?;
    let dataset = Dataset {
        dimensions: parts.dimensions,
        datatype: parts.datatype,
        layout,
    };
    if !filled(image, bodies.space, dataset) {
        return Err(Refusal::Fault(answers::DATASET_UNSOUND, head_of(bodies.layout)));
    }
    Ok(dataset)
}

// Enters the data's block: that of contiguous data with a defined address and a length above 0. No byte of the image is
// read for it, so that the run is the same on every image.
fn enter_data(blocks: &mut Blocks<'_>, bounds: Bounds, layout: Layout) -> Result<(), Refusal>
    requires { Lent blocks.old.words.now blocks.old.count bounds.room }
    ensures walked { (im : List ℕ) → Walked blocks.old.words.now blocks.new.words.now (entry_end (with_count result blocks.new.count))
        (run im bounds.end_of_file bounds.room (data_walk (layout_of layout)) (blocks_of blocks.old.count blocks.old.words.now)) }
    ensures kept { SameWords blocks.old blocks.new }
{
    match layout {
        Layout::Compact { .. } => Ok(()),
        Layout::Contiguous { address, size } => {
            let undefined = address == UNDEFINED_ADDRESS;
            if undefined {
                return Ok(());
            }
            if size < 1 {
                return Ok(());
            }
            blocks.enter(bounds, kinds::DATA, address, size)
        }
    }
}

// The dataset walk behind the parts: reads the layout and enters the data's block.
pub fn read_storage(
    image: &[u8],
    blocks: &mut Blocks<'_>,
    bounds: Bounds,
    bodies: Bodies,
    parts: Parts,
) -> Result<Dataset, Refusal>
    requires lent { Lent blocks.old.words.now blocks.old.count bounds.room }
    requires storage_inside { StorageInside image.now bodies.space parts bodies.layout }
    ensures walked { Walked blocks.old.words.now blocks.new.words.now (dataset_end (body_of image.now bodies.space) blocks.new.count result)
        (run image.now bounds.end_of_file bounds.room (storage_of image.now bodies.space parts bodies.layout)
        (blocks_of blocks.old.count blocks.old.words.now)) }
    ensures dataset_shaped { DatasetShaped (body_of image.now bodies.space) result }
    ensures kept { SameWords blocks.old blocks.new }
{
    let dataset = messages(image, bodies, parts)?;
    enter_data(blocks, bounds, dataset.layout)?;
    Ok(dataset)
}

// The dataset walk: reads the messages and enters the data's block.
pub fn read(
    image: &[u8],
    blocks: &mut Blocks<'_>,
    bounds: Bounds,
    bodies: Bodies,
) -> Result<Dataset, Refusal>
    requires lent { Lent blocks.old.words.now blocks.old.count bounds.room }
    requires bodies_inside { BodiesInside image.now bodies.space bodies.datatype bodies.layout }
    ensures walked { Walked blocks.old.words.now blocks.new.words.now (dataset_end (body_of image.now bodies.space) blocks.new.count result)
        (run image.now bounds.end_of_file bounds.room (dataset_walk (message_of image.now 0x0001 bodies.space)
        (message_of image.now 0x0003 bodies.datatype) (message_of image.now 0x0008 bodies.layout))
        (blocks_of blocks.old.count blocks.old.words.now)) }
    ensures dataset_shaped { DatasetShaped (body_of image.now bodies.space) result }
    ensures kept { SameWords blocks.old blocks.new }
{
    let parts = read_parts(image, bodies)?;
    read_storage(image, blocks, bounds, bodies, parts)
}
