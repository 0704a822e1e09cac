// The kinds of blocks, by their numbers. They stay numbers: `blocks::enter` takes any, and so does a refusal, and an enum would ask more of callers.
pub const SUPERBLOCK: u8 = 1;

pub const HEADER: u8 = 2;

pub const CONTINUATION: u8 = 3;

pub const HEAP: u8 = 4;

pub const SEGMENT: u8 = 5;

pub const TREE: u8 = 6;

pub const SYMBOL_NODE: u8 = 7;

pub const DATA: u8 = 8;
