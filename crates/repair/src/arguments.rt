// What the arguments ask for: an order, and the file or its report.
ghost use Rattle.std.specs.Prelude.{◌≡◌};
ghost use Rattle.input.specs.Counts.{IsPrefixLen};
ghost use Rattle.repair.specs.Digits.{type_named, types_named};

use std::env::{Env, FillError};

// The room for an order: a digit more than it has, so that a longer word is seen to be none, and never cut to one.
pub(crate) const ORDER: usize = 9;

// What is asked for: the file put right, or the report of what changes.
#[derive(Clone, Copy, Debug, PartialEq, Eq)]
pub(crate) enum Output {
    File,
    Report,
}

// Tells whether the program was started with a word at a place.
fn is_given(from: &impl Env, place: usize) -> bool {
    !matches!(from.arg(place, &mut []), Err(FillError::NotPresent))
}

// Answers how many words the program was started with, its own name among them, and 4 for more.
fn word_count(from: &impl Env) -> usize {
    (0..4).take_while(|place| is_given(from, *place)).count()
}

// Puts the word at a place at the start of a room, and answers its length: 0 where it is missing or there is no room for it.
fn word_at(from: &impl Env, place: usize, room: &mut [u8]) -> usize
    ensures { IsPrefixLen result room.new }
{
    from.arg(place, room).unwrap_or(0)
}

// Tells whether the second argument asks for the report.
fn asks_report(from: &impl Env) -> bool {
    let mut word = [0u8; 6];
    let length = word_at(from, 2, &mut word);
    &word[..length] == b"report".as_slice()
}

// Answers what the number of arguments and the second of them ask for, if the program knows it; its own name is the first word.
pub(crate) fn asked_for(from: &impl Env) -> Option<Output> {
    match word_count(from) {
        2 => Some(Output::File),
        3 if asks_report(from) => Some(Output::Report),
        _ => None,
    }
}

// Answers the type that a digit names, 0 for a byte that names none.
fn type_of(digit: u8) -> u8
    ensures { result ≡ type_named digit }
{
    match digit {
        b'1'..=b'8' => digit - b'0',
        _ => 0,
    }
}

// Puts the types that digits name in their places.
fn name_types(word: &mut [u8])
    ensures { word.new ≡ types_named word.old }
{
    for byte in word.iter_mut() {
        *byte = type_of(*byte);
    }
}

// Reads the order off the first argument, and answers how many types it names: 0 where there is no room for all.
pub(crate) fn order_asked(from: &impl Env, order: &mut [u8]) -> usize
    ensures { IsPrefixLen result order.new }
{
    let length = word_at(from, 1, order);
    name_types(order);
    length
}
