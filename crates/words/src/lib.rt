// Words of 64 bits as little-endian bytes.
#![tactic(auto)]

ghost use Rattle.std.specs.Prelude.{◌≡◌, ◌++◌, ◌+◌, ◌-◌, ◌*◌, ◌≤◌, length, take, replicate};
ghost use Rattle.format.specs.Bytes.{to_bytes, overwrite};
ghost use Rattle.format.specs.Front.{padded_bytes};

// Writes the 8 bytes of a word, the lowest first.
pub fn put_word(out: &mut [u8], at: usize, w: u64)
    requires { at + 8 ≤ length out.old }
    ensures { out.new ≡ overwrite out.old at (to_bytes 8 w) }
{
    out[at..at + 8].copy_from_slice(&w.to_le_bytes());
}

// Sets every byte from a place on to 0, as `walk::blocks::clear_from` does with words. The reason why it isn't one function stands there.
pub fn clear_from(out: &mut [u8], from: usize)
    requires { from ≤ length out.old }
    ensures { out.new ≡ take from out.old ++ replicate (length out.old - from) 0 }
{
    out[from..].fill(0);
}

// The words as bytes, and zeros behind them.
pub fn spill(words: &[u64], out: &mut [u8])
    requires { 8 * length words.now ≤ length out.old }
    ensures { out.new ≡ padded_bytes (length out.old) words.now }
{
    for (i, word) in words.iter().enumerate() {
        put_word(out, 8 * i, *word);
    }
    clear_from(out, 8 * words.len());
}
