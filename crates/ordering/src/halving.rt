// The place in an order, found by halving.
ghost use Rattle.std.specs.Prelude.{true, false, ◌≡◌, ℕ, ◌+◌, ◌^◌, ◌≤◌, ◌<◌};

// How many stand before what is searched for, and how many are tested for that.
#[derive(Clone, Copy)]
pub struct Place {
    pub place: usize,
    pub tests: usize,
}

// Finds the place among `count` by a test whether one stands before it: the last of those before the place does, and the next doesn't.
// `partition_point` finds it too, but doesn't say how many are tested.
pub fn halve<F: Fn(usize) -> bool>(count: usize, before: F) -> Place
    requires { (k : ℕ) → k < count → F.pre before k }
    ensures most { result.place ≤ count }
    ensures last { (k : ℕ) → k + 1 ≡ result.place → F.post before k true }
    ensures next { result.place < count → F.post before result.place false }
    ensures tests { (m : ℕ) → count < 2 ^ m → result.tests ≤ m }
{
    let mut low = 0;
    let mut high = count;
    let mut tests = 0;
    while low < high {
        let middle = low + (high - low) / 2;
        tests += 1;
        if before(middle) {
            low = middle + 1;
        } else {
            high = middle;
        }
    }
    Place { place: low, tests }
}
