// The table of orders: how many blocks were entered in each, and the highest number of blocks that one was compared with.
ghost use Rattle.io.specs.Counts.{IsPrefixLen};

use crate::compared::{Compared, compare};
use crate::orders;
use crate::orders::{Order, SIZE};
use format::BLOCKS_MOST;
use std::fmt;
use walk::blocks::WORK_WORDS;

// The row of an order.
#[derive(Clone, Copy)]
struct Row {
    name: &'static str,
    compared: Compared,
}

impl fmt::Display for Row {
    fn fmt<W: fmt::Write>(&self, f: &mut fmt::Formatter<W>) -> fmt::Result {
        let name = self.name;
        let entered = self.compared.entered;
        let most = self.compared.most;
        writeln!(
            f,
            "{name:<9}{entered} blocks, each compared with at most {most}"
        )
    }
}

fn row_of(name: &'static str, addresses: &[u64]) -> Row {
    let mut work = [0u64; WORK_WORDS];
    Row {
        name,
        compared: compare(&mut work, addresses, SIZE, 4294967295),
    }
}

// Writes all rows and returns how many bytes they are.
fn put_table(out: &mut [u8]) -> usize
    ensures { IsPrefixLen result out.new }
{
    let mut addresses = [0u64; BLOCKS_MOST];
    orders::fill(&mut addresses, Order::Rising);
    let rising = row_of("rising", &addresses);
    orders::fill(&mut addresses, Order::Falling);
    let falling = row_of("falling", &addresses);
    orders::fill(&mut addresses, Order::Inward);
    let inward = row_of("inward", &addresses);
    orders::shuffled(&mut addresses);
    let random = row_of("random", &addresses);
    text_line::put(out, format_args!("{rising}{falling}{inward}{random}"))
}

// Writes the table to standard output.
pub fn print(rt: &HostRuntime, out: &mut [u8]) {
    let n = put_table(out);
    source::print(rt, &out[..n]);
}
