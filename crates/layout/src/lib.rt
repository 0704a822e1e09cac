// The data layout message, version 3: compact or contiguous.
#![tactic(auto)]

ghost use Rattle.std.specs.Prelude.{◌≡◌, ◌+◌, ◌^◌, ◌≤◌, ◌<◌, length};
ghost use Rattle.format.specs.Layout.{read_compact, read_contiguous, read_layout};
ghost use Rattle.layout.specs.Layout.{layout_result};

use format::answers;
use walk::numbers::{u16_at, u64_at};

#[derive(Clone, Copy)]
pub enum Layout {
    Compact { address: u64, size: u64 },
    Contiguous { address: u64, size: u64 },
}

// Data in the message itself, behind four bytes of it. The body begins at `place` in the image.
fn read_compact(body: &[u8], place: usize) -> Result<Layout, u8>
    requires in_bounds { 8 ≤ length body.now }
    requires body_bound { place + length body.now < 2 ^ 63 }
    ensures { layout_result result ≡ read_compact place body.now }
{
    let size = u16_at(body, 2);
    if (body.len() as u64) < 4 + size {
        return Err(answers::DATASET_UNSOUND);
    }
    let address = (place + 4) as u64;
    Ok(Layout::Compact { address, size })
}

// Data in a block of its own.
fn read_contiguous(body: &[u8]) -> Result<Layout, u8>
    ensures { layout_result result ≡ read_contiguous body.now }
{
    if body.len() < 18 {
        return Err(answers::DATASET_UNSOUND);
    }
    let address = u64_at(body, 2);
    let size = u64_at(body, 10);
    Ok(Layout::Contiguous { address, size })
}

// Reads the message: the layout, or 3 or 11. The body begins at `place` in the image.
pub fn read(body: &[u8], place: usize) -> Result<Layout, u8>
    requires { place + length body.now < 2 ^ 63 }
    ensures { layout_result result ≡ read_layout place body.now }
{
    if body.len() < 8 {
        return Err(answers::DATASET_UNSOUND);
    }
    if body[0] != 3 {
        return Err(answers::NOT_READ);
    }
    if 1 < body[1] {
        return Err(answers::NOT_READ);
    }
    if body[1] == 0 {
        return read_compact(body, place);
    }
    read_contiguous(body)
}
