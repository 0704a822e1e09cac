// The words for an answer and for a kind of block.
#![tactic(auto)]

use format::answers;
use std::fmt;
use walk::kinds;

// What an answer of the audit means, in the words of document 01.
#[derive(Clone, Copy)]
pub struct AnswerWords(pub u8);

fn words_of(answer: u8) -> &'static str {
    match answer {
        answers::LENGTH_OUT_OF_RANGE => "image length out of range",
        answers::NO_SIGNATURE => "no signature 89 48 44 46 0d 0a 1a 0a",
        answers::NOT_READ => "a version, type or feature not read here",
        answers::SUPERBLOCK_UNSOUND =>
            "version 1 in under 100 bytes, a group K of 0, root entry no hard link, or end of file above the image length",
        answers::OUTSIDE => "block not inside the end-of-file address",
        answers::OVERLAP => "block shares a byte with one already entered",
        answers::WRONG_SIGNATURE => "node or heap signature or version wrong",
        answers::NODE_UNSOUND => "tree or symbol node unsound",
        answers::HEAP_UNSOUND => "heap or name unsound",
        answers::HEADER_UNSOUND => "object header unsound",
        answers::DATASET_UNSOUND => "dataset messages unsound",
        answers::TOO_MANY_OBJECTS => "one object too many",
        answers::NO_ROOM => "no room for the next block",
        _ => "",
    }
}

impl fmt::Display for AnswerWords {
    fn fmt<W: fmt::Write>(&self, f: &mut fmt::Formatter<W>) -> fmt::Result {
        f.write_str(words_of(self.0))
    }
}

// The name of a kind of block, by the word that a list has for it.
#[derive(Clone, Copy)]
pub struct KindName(pub u64);

fn name_of(kind: u64) -> &'static str {
    match u8::try_from(kind) {
        Ok(kinds::SUPERBLOCK) => "superblock",
        Ok(kinds::HEADER) => "object header",
        Ok(kinds::CONTINUATION) => "continuation",
        Ok(kinds::HEAP) => "heap header",
        Ok(kinds::SEGMENT) => "heap segment",
        Ok(kinds::TREE) => "tree node",
        Ok(kinds::SYMBOL_NODE) => "symbol table node",
        Ok(kinds::DATA) => "data",
        _ => "",
    }
}

impl fmt::Display for KindName {
    fn fmt<W: fmt::Write>(&self, f: &mut fmt::Formatter<W>) -> fmt::Result {
        f.write_str(name_of(self.0))
    }
}
