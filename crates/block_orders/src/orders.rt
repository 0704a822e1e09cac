// The addresses of as many blocks as a list has words, in one order or another. The blocks touch each other.
ghost use Rattle.std.specs.Prelude.{◌<◌};

// The bytes of a block.
pub const SIZE: u64 = 16;

fn address(number: usize) -> u64 {
    if number < 4294967296 {
        return number as u64 * SIZE;
    }
    0
}

// Each block behind the one before it; each before it; the first, the last, the second, the last but one, and so on.
#[derive(Clone, Copy)]
pub enum Order {
    Rising,
    Falling,
    Inward,
}

// The number of the i-th block of n, by address.
fn number(order: Order, n: usize, i: usize) -> usize {
    if n <= i {
        return 0;
    }
    match order {
        Order::Rising => i,
        Order::Falling => n - 1 - i,
        Order::Inward => {
            if i % 2 == 0 {
                return i / 2;
            }
            n - 1 - i / 2
        }
    }
}

pub fn fill(out: &mut [u64], order: Order) {
    let n = out.len();
    for (i, word) in out.iter_mut().enumerate() {
        *word = address(number(order, n, i));
    }
}

// The next of a sequence of numbers that looks random.
fn next(x: u64) -> u64 {
    (x % 4294967296 * 1103515245 + 12345) % 2147483648
}

// A number below n.
fn below(x: u64, n: usize) -> usize
    requires { 0 < n }
    ensures { result < n }
{
    let r = x as usize % n;
    if r < n {
        return r;
    }
    0
}

// The rising order shuffled, always in the same way.
pub fn shuffled(out: &mut [u64]) {
    fill(out, Order::Rising);
    let mut seed = 1;
    for i in (1..out.len()).rev() {
        seed = next(seed);
        let j = below(seed / 16, i + 1);
        out.swap(i, j);
    }
}
