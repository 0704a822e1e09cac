// Where the free blocks met so far lie. In a list that rises or falls the next block lies outside, and its bytes are not looked for.
ghost use Rattle.std.specs.Prelude.{List, [], ◌∷◌, ◌++◌, ◌≡◌, ◌+◌, ◌≤◌, ◌<◌, ◌^◌, length};
ghost use Rattle.format.specs.Blocks.{Block, block, overlaps_any};
ghost use Rattle.free_list.specs.FreeBlocks.{chain, Held};
ghost use Rattle.free_list.specs.Spanned.{Spanned};

use crate::search::{FreeBlocks, meets_free};

// No block has a byte before `low`, or one from `high` on.
#[derive(Clone, Copy)]
pub struct Span {
    pub low: usize,
    pub high: usize,
}

// With one block more.
pub fn widened(span: Span, off: usize, size: usize) -> Span
    requires { off + size < 2 ^ 64 }
    ensures { (bs : List Block) → Spanned span.low span.high bs → Spanned result.low result.high (bs ++ (block off size ∷ [])) }
{
    Span {
        low: span.low.min(off),
        high: span.high.max(off + size),
    }
}

// Whether one of the `size` bytes at `off` lies in one of the free blocks met so far.
pub fn meets_block(met: FreeBlocks<'_>, map: &[u8], span: Span, off: usize, size: usize) -> bool
    requires held { Held met.segment.now map.now met.head met.count }
    requires spanned { Spanned span.low span.high (chain met.count met.segment.now met.head) }
    requires size_nonzero { 0 < size }
    requires size_in_bounds { off + size ≤ length met.segment.now }
    ensures { result ≡ overlaps_any (chain met.entry.count met.entry.segment.now met.entry.head) off size }
{
    if span.high <= off {
        return false;
    }
    if off + size <= span.low {
        return false;
    }
    meets_free(met, map, off, size)
}
