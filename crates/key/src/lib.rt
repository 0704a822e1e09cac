// The keys of a tree node: strings of the heap's segment.
#![tactic(auto)]

ghost use Rattle.std.specs.Prelude.{◌+◌, ◌*◌, ◌≤◌, length};
ghost use Rattle.nul.specs.Nul.{LastNul};
ghost use Rattle.key.specs.Key.{KeysAre, KeyAt, KeyIs};

use format::Refusal;
use order::{first_number, second_number};
use range::Name;
use walk::numbers::u64_at;

// Whether `n` keys are strings of the segment, of which `ended` bytes reach to the last NUL. The first stands at `from`, and a child's
// address behind each but the last.
pub fn check_keys(
    image: &[u8],
    segment: &[u8],
    ended: usize,
    from: usize,
    n: usize,
) -> Result<(), Refusal>
    requires last_nul { LastNul segment.now ended }
    requires n_in_bounds { from + 16 * n ≤ length image.now + 8 }
    ensures { KeysAre image.now segment.now from n result }
{
    for i in 0..n {
        let at = from + 16 * i;
        let off = u64_at(image, at);
        names::key(segment, ended, off).map_err(|f| Refusal::Fault(u8::from(f), at))?;
    }
    Ok(())
}

// The key at `at`, which has been found sound before, as far as a name can reach and one byte more.
pub fn key_at(image: &[u8], segment: &[u8], at: usize) -> Name
    requires { KeyAt image.now segment.now at }
    ensures { KeyIs image.now segment.now at result }
{
    let limits = format::the_limits();
    let off = u64_at(image, at);
    let start = off as usize;
    let end = nul::nul_within(segment, start, limits.name_most + 1);
    let size = end - start;
    Name {
        at: start,
        size,
        first: first_number(segment, start, size),
        second: second_number(segment, start, size),
    }
}
