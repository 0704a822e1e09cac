// Where a command's input comes from: the file that its one argument names, or standard input.
#![tactic(auto)]

ghost use Rattle.io.specs.Counts.{IsPrefixLen};

use std::env::{Env, FillError};
use std::fs::File;
use std::io::{Error, ErrorKind, Read, Write};
use std::str;

// What is to be read.
#[derive(Drop)]
pub enum Opened {
    Input,
    File(File),
}

// What is to be read, if it could be opened, and how many bytes its name has. Standard input has no name.
#[derive(Drop)]
pub struct Source {
    pub opened: Option<Opened>,
    pub named: usize,
}

// Writes a line to standard error: what failed, and why. Where that can't be written, nothing is left to do.
pub fn say(rt: &HostRuntime, name: &[u8], error: Error) {
    rt.stderr().write_all(name).unwrap_or(());
    eprintln!(rt; ": {error}").unwrap_or(());
}

// Opens the file of this name. Where there is none, standard error says why.
fn open_file(rt: &HostRuntime, name: &[u8]) -> Option<Opened> {
    let opened = match str::from_utf8(name) {
        Ok(text) => File::open(rt, text),
        Err(_) => Err(Error::from(ErrorKind::InvalidInput)),
    };
    match opened {
        Ok(file) => Some(Opened::File(file)),
        Err(error) => {
            say(rt, name, error);
            None
        }
    }
}

// Opens the file that the argument names, and leaves the name in `path`.
fn open_named(rt: &HostRuntime, path: &mut [u8]) -> Source
    ensures { IsPrefixLen result.named path.new }
{
    match rt.arg(1, path) {
        Err(_) => {
            say(rt, b"the argument", Error::from(ErrorKind::InvalidInput));
            Source {
                opened: None,
                named: 0,
            }
        }
        Ok(named) => Source {
            opened: open_file(rt, &path[..named]),
            named,
        },
    }
}

// Whether there is an argument of this number.
fn is_given(rt: &HostRuntime, number: usize) -> bool {
    let mut text = [0u8; 1];
    match rt.arg(number, &mut text) {
        Err(FillError::NotPresent) => false,
        _ => true,
    }
}

// Opens the input. Where there is none, standard error says why.
pub fn open(rt: &HostRuntime, path: &mut [u8], usage: &str) -> Source
    ensures { IsPrefixLen result.named path.new }
{
    if !is_given(rt, 1) {
        return Source {
            opened: Some(Opened::Input),
            named: 0,
        };
    }
    if is_given(rt, 2) {
        eprintln!(rt; "{usage}").unwrap_or(());
        return Source {
            opened: None,
            named: 0,
        };
    }
    open_named(rt, path)
}

// Says that the input of this name can't be read.
pub fn fail(rt: &HostRuntime, name: &[u8], error: Error) {
    if name.len() == 0 {
        say(rt, b"standard input", error);
        return;
    }
    say(rt, name, error);
}

// Writes a text to standard output. Where that can't be written, standard error says why.
pub fn print(rt: &HostRuntime, text: &[u8]) {
    if let Err(error) = rt.stdout().write_all(text) {
        say(rt, b"standard output", error);
    }
}
