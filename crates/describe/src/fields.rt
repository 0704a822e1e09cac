// What a description says of a dataset's messages.
ghost use Rattle.std.specs.Prelude.{◌≡◌, ◌+◌, ◌*◌, ◌≤◌, length, drop};
ghost use Rattle.format.specs.Limits.{rank_most};
ghost use Rattle.format.specs.Bytes.{to_words, padded};
ghost use Rattle.dataspace.specs.Dataspace.{space_of};
ghost use Rattle.dataset.specs.Dataset.{Inside, body_of};
ghost use Rattle.dataset_at.specs.Reader.{Readable};
ghost use Rattle.describe.specs.Fields.{TypeIs, LayoutIs};

use dataset::dataset::Dataset;
use datatype::Datatype;
use format::RANK_MOST;
use layout::Layout;
use message::Body;

// A datatype's own fields, or the address of a shared one; those not given are 0.
#[derive(Clone, Copy)]
pub struct TypeFields {
    pub class: u8,
    pub version: u8,
    pub bits: u32,
    pub size: u32,
    pub shared: u64,
}

pub fn type_fields(datatype: Datatype) -> TypeFields
    ensures { TypeIs datatype result }
{
    match datatype {
        Datatype::Own {
            class,
            version,
            bits,
            size,
        } => TypeFields {
            class,
            version,
            bits,
            size,
            shared: 0,
        },
        Datatype::Shared(address) => TypeFields {
            class: 0,
            version: 0,
            bits: 0,
            size: 0,
            shared: address,
        },
    }
}

#[derive(Clone, Copy)]
pub struct LayoutFields {
    pub class: u8,
    pub address: u64,
    pub size: u64,
}

pub fn layout_fields(layout: Layout) -> LayoutFields
    ensures { LayoutIs layout result }
{
    match layout {
        Layout::Compact { address, size } => LayoutFields {
            class: 0,
            address,
            size,
        },
        Layout::Contiguous { address, size } => LayoutFields {
            class: 1,
            address,
            size,
        },
    }
}

// The `rank` words at `from` in a message's body, which is a part of the image.
pub fn words_in(image: &[u8], body: Body, from: usize, rank: usize) -> [u64; RANK_MOST]
    requires inside { Inside image.now body }
    requires rank_in_bounds { from + 8 * rank ≤ length (body_of image.now body) }
    requires rank_le_rank_most { rank ≤ rank_most }
    ensures { result ≡ padded rank_most (to_words rank (drop from (body_of image.now body))) }
{
    let place = body.place;
    let end = place + body.size;
    dataspace::words(&image[place..end], from, rank)
}

// The maxima, or the sizes where none are stored.
pub fn maxima_in(image: &[u8], space: Body, dataset: Dataset) -> [u64; RANK_MOST]
    requires { Readable image.now space dataset }
    ensures { result ≡ padded rank_most (space_of (body_of image.now space) dataset.dimensions.rank dataset.dimensions.maxima_stored).maxima }
{
    let rank = dataset.dimensions.rank;
    if dataset.dimensions.maxima_stored {
        return words_in(image, space, 8 + 8 * rank, rank);
    }
    words_in(image, space, 8, rank)
}
