// Program sorted: the generators of the bench file on standard input by pitch, or in the order of a file that its argument names, and by what that order and the one by number differ.
// Without an argument it is as with `-`: by pitch.
// A read or a write that fails, and a second argument, end it with a line on standard error.
#![tactic(auto)]

use ring_order::By;
use std::io;

// Prints what is found of a bench file, and of an order file if one is asked for.
fn print(rt: HostRuntime, file: &[u8], by: By, listing: &[u8]) -> io::Result<()> {
    let mut out = [0u8; sorted_findings::FINDINGS_ROOM];
    let length = sorted_findings::findings(file, by, listing, &mut out);
    rt.write_all(&out[..length])
}

fn main(rt: HostRuntime) {
    ring_streams::run(rt, b"sorted", |file, by, listing| {
        print(rt, file, by, listing)
    });
}
