// The answers of document 01, "Replies", with its words. The contract of each function that gives one shows it to be the definition's. They stay numbers:
// `Refusal`, which the definitions speak of, and every reply have them as numbers.

// "done"
pub const DONE: u8 = 0;

// "image length out of range"
pub const LENGTH_OUT_OF_RANGE: u8 = 1;

// "no signature 89 48 44 46 0d 0a 1a 0a"
pub const NO_SIGNATURE: u8 = 2;

// "a version, type or feature not read here"
pub const NOT_READ: u8 = 3;

// "version 1 in under 100 bytes, a group K of 0, root entry no hard link, or end of file above the image length"
pub const SUPERBLOCK_UNSOUND: u8 = 4;

// "block not inside the end-of-file address"
pub const OUTSIDE: u8 = 5;

// "block shares a byte with one already entered"
pub const OVERLAP: u8 = 6;

// "node or heap signature or version wrong"
pub const WRONG_SIGNATURE: u8 = 7;

// "tree or symbol node unsound"
pub const NODE_UNSOUND: u8 = 8;

// "heap or name unsound"
pub const HEAP_UNSOUND: u8 = 9;

// "object header unsound"
pub const HEADER_UNSOUND: u8 = 10;

// "dataset messages unsound"
pub const DATASET_UNSOUND: u8 = 11;

// "a 257th object", "objects to 1,024"
pub const TOO_MANY_OBJECTS: u8 = 12;

// "no room for the next block"
pub const NO_ROOM: u8 = 13;

// "bad path"
pub const BAD_PATH: u8 = 14;

// "name absent"
pub const NAME_ABSENT: u8 = 15;

// "symbolic link before the last component"
pub const SYMBOLIC_BEFORE_LAST: u8 = 16;

// "non-group before the last component"
pub const NOT_A_GROUP: u8 = 17;

// "undo log too short"
pub const LOG_TOO_SHORT: u8 = 18;

// "undo log doesn't fit this image"
pub const LOG_NOT_FITTING: u8 = 19;

// "not a dataset"
pub const NOT_A_DATASET: u8 = 20;
