// The program `listing`: the last part of document 01's section 'Worked figures'.
// It reads records from standard input and writes what `lines::listing` says of them to standard output.
#![tactic(auto)]

// Lists standard input, or says on standard error what failed; nothing is listed of an input that was not read to its end.
fn main(rt: HostRuntime) {
    let mut file = [0u8; lines::FILE];
    let mut text = [0u8; lines::TEXT];
    let input = input::read_all(&mut rt.stdin(), &mut file);
    if let Some(error) = input.failure {
        input::fail(&rt.stderr(), b"listing: standard input", error);
        return;
    }
    let read = input.length;
    // the text has room for the listing of any file
    if let Ok(length) = lines::listing(&file[..read], &mut text)
        && let Err(error) = rt.write_all(&text[..length])
    {
        input::fail(&rt.stderr(), b"listing: standard output", error);
    }
}
