// Standard input, read to its end into bytes that the caller lends: there is no heap.
// The programs `listing`, `repair` and `cases` read by it, and the first two write by `fail` what went wrong.
#![tactic(auto)]

ghost use Rattle.std.specs.Prelude.{◌<◌, length, take, IsNone};
ghost use Rattle.std.specs.Io.KnownBytes.{Consumes, IsAtEnd};
ghost use Rattle.input.specs.Counts.{IsPrefixLen};

use std::io::{Error, ErrorKind, Read};

mod failure;

pub use failure::fail;

// How many bytes were read, and the error of the read that failed, if one did.
#[derive(Drop)]
pub struct Input {
    pub length: usize,
    pub failure: Option<Error>,
}

// Reads standard input, or what else is lent in its place, to its end, or until the file is full; a read that a signal interrupts is
// tried again. Every turn reads a byte or was interrupted, and the turns are counted only so that the loop is sure to end.
// Where it is known which bytes come, those in the file are the ones that came; and unless a read failed, all came or the file is full.
pub fn read_all<R: Read>(from: &mut R, file: &mut [u8]) -> Input
    ensures prefix { IsPrefixLen result.length file.new }
    ensures bytes { Consumes (R.remaining from.old) (R.remaining from.new) (take result.length file.new) }
    ensures end { IsNone result.failure → result.length < length file.new → IsAtEnd (R.remaining from.new) }
{
    let mut length: usize = 0;
    for _ in 0..u64::MAX {
        if length == file.len() {
            return Input {
                length,
                failure: None,
            };
        }
        match from.read(&mut file[length..]) {
            Ok(0) => {
                return Input {
                    length,
                    failure: None,
                };
            }
            Ok(got) => length += got,
            Err(why) if why.kind() == ErrorKind::Interrupted => (),
            Err(why) => {
                return Input {
                    length,
                    failure: Some(why),
                };
            }
        }
    }
    Input {
        length,
        failure: Some(Error::from(ErrorKind::Interrupted)),
    }
}
