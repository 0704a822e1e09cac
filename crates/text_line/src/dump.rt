// Bytes of the image, in the lines that `hexdump -C` prints, so that a reader finds the same line in a dump of the file.
use std::fmt;

// How many bytes a line has, and where a wider gap stands in it.
const ROW: usize = 16;

const HALF: usize = 8;

const ROWS_MOST: usize = 4;

// The byte as a character, and a point for a byte that is none.
fn printable(byte: u8) -> char {
    match byte {
        0x20..=0x7e => byte as char,
        _ => '.',
    }
}

// The line of up to 16 bytes, which stand at `from` in the image. An input is short enough for 8 digits.
#[derive(Clone, Copy)]
struct Row<'a> {
    from: usize,
    bytes: &'a [u8],
}

impl fmt::Display for Row<'_> {
    fn fmt<W: fmt::Write>(&self, f: &mut fmt::Formatter<W>) -> fmt::Result {
        let from = self.from;
        write!(f, "{from:08x}")?;
        for i in 0..ROW {
            let gap = if i % HALF == 0 { "  " } else { " " };
            match self.bytes.get(i) {
                Some(byte) => write!(f, "{gap}{byte:02x}")?,
                None => write!(f, "{gap}  ")?,
            }
        }
        write!(f, "  |")?;
        for byte in self.bytes {
            f.write_char(printable(*byte))?;
        }
        writeln!(f, "|")
    }
}

// The line that holds the byte `place` of the image and up to three more. Outside the image there is none.
#[derive(Clone, Copy)]
pub struct Rows<'a> {
    pub image: &'a [u8],
    pub place: u64,
}

impl fmt::Display for Rows<'_> {
    fn fmt<W: fmt::Write>(&self, f: &mut fmt::Formatter<W>) -> fmt::Result {
        if self.image.len() as u64 <= self.place {
            return Ok(());
        }
        let mut from = self.place as usize / ROW * ROW;
        for bytes in self.image[from..].chunks(ROW).take(ROWS_MOST) {
            let row = Row { from, bytes };
            write!(f, "{row}")?;
            from = from.saturating_add(ROW);
        }
        Ok(())
    }
}
