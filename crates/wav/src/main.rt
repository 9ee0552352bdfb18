// Program wav: the bench file on standard input as sound, a RIFF/WAVE file on standard output. A refusal leaves that empty and stands on standard error.
// Without an argument each pass goes by number, with `-` by pitch, with another by the order file of that name.
// A read or a write that fails, and a second argument, end it with a line on standard error.
#![tactic(auto)]

use ring_order::By;
use std::io;

// Writes the sound of a bench file, or its refusal.
fn sound(rt: HostRuntime, file: &[u8], by: By, listing: &[u8]) -> io::Result<()> {
    let mut out = [0u8; ring_wave::WAVE_ROOM];
    match ring_wave::wave(file, by, listing, &mut out) {
        Ok(length) => rt.write_all(&out[..length]),
        Err(line) => rt.stderr().write_all(line.bytes()),
    }
}

fn main(rt: HostRuntime) {
    ring_streams::run(rt, b"wav", |file, by, listing| sound(rt, file, by, listing));
}
