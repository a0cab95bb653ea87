// What is told on standard error: the account of a repair, and why there is none. A write that fails is passed over.

use order::RepairRefusal;

// Tells words as they stand.
fn tell(to: &impl Print, words: &[u8]) {
    let _ = to.write_all(words);
}

// Tells words, and a number in plain decimal behind them.
fn tell_number(to: &impl Print, words: &[u8], n: u64) {
    tell(to, words);
    let _ = to.print(n);
}

// Tells in words why a file is not put right; of the rooms, which this program makes large enough, nothing.
fn tell_refusal(to: &impl Print, why: RepairRefusal) {
    match why {
        RepairRefusal::NotAnOrder => tell(
            to,
            b": the order does not name each of the types 1 to 8 once",
        ),
        RepairRefusal::PartOfARecord => tell(to, b": the file is not a whole number of records"),
        RepairRefusal::NoRoom => (),
    }
}

// Tells how a repair went: how many whole records the file has, how many bits of the report are set, and the refusal.
pub(crate) fn tell_account(to: &impl Print, records: u64, repaired: Result<u64, RepairRefusal>) {
    let (changed, refusal) = match repaired {
        Ok(changed) => (changed, 0),
        Err(why) => (0, why.number()),
    };
    tell_number(to, b"repair: ", records);
    tell_number(to, b" records, ", changed);
    tell_number(to, b" bits set, refusal ", refusal as u64);
    if let Err(why) = repaired {
        tell_refusal(to, why);
    }
    tell(to, b"\n");
}

// Tells that a file is longer than the program takes.
pub(crate) fn tell_too_long(to: &impl Print, most: u64) {
    tell_number(to, b"repair: the file has more than ", most);
    tell(to, b" records\n");
}

// Tells how the program is started, in both forms.
pub(crate) fn tell_usage(to: &impl Print) {
    tell(
        to,
        b"usage: repair ORDER < OLD > NEW, or repair ORDER report < OLD; ORDER names the type at each place, as 31245678\n",
    );
}
