// The streams of the bench programs: a file is read whole, an order file by its argument, and what went wrong is a line on standard error.
#![tactic(auto)]

ghost use Rattle.std.specs.Prelude.{◌≡◌, ◌≤◌, length, IfOk, IfSome};
ghost use Rattle.ring_order.specs.RungOrder.{by_name};
ghost use Rattle.ring_streams.specs.Counts.{IsPrefixLen};

use ring_order::By;
use std::env::{Env, FillError};
use std::fs::{Files, OpenOptions};
use std::io::Read;
use std::{io, str};

// The room for a file: one byte more than it may have, so that a longer one is told apart.
pub const FILE_ROOM: usize = file_lines::FILE_BYTES + 1;

// The room for an argument. A longer one names no file.
const NAME_ROOM: usize = 4096;

// What a program is asked for: by what the passes go, and how many bytes the order file has.
#[derive(Clone, Copy)]
pub struct Request {
    pub by: By,
    pub length: usize,
}

// Writes a line to standard error: the program's name, and what went wrong.
pub fn complain(rt: HostRuntime, program: &[u8], fault: &[u8]) {
    let error = rt.stderr();
    let _ = error.write_all(program);
    let _ = error.write_all(fault);
}

// Reads a stream until the buffer is full or the stream ends. A read that fails is not the end.
fn read_all<R: Read>(stream: &mut R, buffer: &mut [u8]) -> io::Result<usize>
    ensures { IfOk result (λ n. n ≤ length buffer.new) }
{
    let mut n = 0;
    while n < buffer.len() {
        let more = stream.read(&mut buffer[n..])?;
        if more == 0 {
            return Ok(n);
        }
        n += more;
    }
    Ok(n)
}

// Reads the bench file, from standard input, as far as its room goes. A read that fails is told on standard error.
// Not inlined, as `read_arguments`: what a reader needs of the stack is free again when the work begins, so that `ring` runs within 512 kB.
#[inline(never)]
pub fn read_bench(rt: HostRuntime, program: &[u8], file: &mut [u8; FILE_ROOM]) -> Option<usize>
    ensures { IfSome result (λ n. IsPrefixLen n file.new) }
{
    let Ok(length) = read_all(&mut rt.stdin(), file) else {
        complain(rt, program, b": cannot read\n");
        return None;
    };
    Some(length)
}

// Reads the order file of a name, as far as its room goes.
fn read_named(rt: HostRuntime, name: &[u8], file: &mut [u8; FILE_ROOM]) -> Option<usize>
    ensures { IfSome result (λ n. IsPrefixLen n file.new) }
{
    let path = str::from_utf8(name).ok()?;
    let mut stream = rt.open_file(OpenOptions::new().read(true), path).ok()?;
    read_all(&mut stream, file).ok()
}

// Asks for the order file of a name. One that cannot be read is told on standard error.
fn request_file(
    rt: HostRuntime,
    program: &[u8],
    name: &[u8],
    file: &mut [u8; FILE_ROOM],
) -> Option<Request>
    ensures by_value { IfSome result (λ r. r.by ≡ By.File) }
    ensures prefix_len { IfSome result (λ r. IsPrefixLen r.length file.new) }
{
    let Some(length) = read_named(rt, name, file) else {
        complain(rt, program, b": cannot read the order file\n");
        return None;
    };
    Some(Request {
        by: By::File,
        length,
    })
}

// What an argument asks for.
fn request_named(
    rt: HostRuntime,
    program: &[u8],
    name: &[u8],
    file: &mut [u8; FILE_ROOM],
) -> Option<Request>
    ensures by_value { IfSome result (λ r. r.by ≡ by_name name.now) }
    ensures prefix_len { IfSome result (λ r. IsPrefixLen r.length file.new) }
{
    let by = ring_order::by_name(name);
    match by {
        By::Number | By::Pitch => Some(Request { by, length: 0 }),
        By::File => request_file(rt, program, name, file),
    }
}

// Whether there is an argument of a number, however long.
fn is_given(rt: HostRuntime, number: usize) -> bool {
    let mut start = [0u8; 1];
    !matches!(rt.arg(number, &mut start), Err(FillError::NotPresent))
}

// What the program's arguments ask for: none by number, one what it names. More, and one that cannot be read, are told on standard error.
#[inline(never)]
pub fn read_arguments(
    rt: HostRuntime,
    program: &[u8],
    file: &mut [u8; FILE_ROOM],
) -> Option<Request>
    ensures { IfSome result (λ r. IsPrefixLen r.length file.new) }
{
    if !is_given(rt, 1) {
        return Some(Request {
            by: By::Number,
            length: 0,
        });
    }
    if is_given(rt, 2) {
        complain(rt, program, b": one order file at most\n");
        return None;
    }
    let mut name = [0u8; NAME_ROOM];
    let Ok(size) = rt.arg(1, &mut name) else {
        complain(rt, program, b": cannot read the order file\n");
        return None;
    };
    request_named(rt, program, &name[..size], file)
}

// A program over a bench file: reads the arguments and then the file, and does its work with the file, by what the passes go, and the order file. What cannot be read or written is told on standard error.
pub fn run<F: FnOnce(&[u8], By, &[u8]) -> io::Result<()>>(rt: HostRuntime, program: &[u8], work: F)
    requires { F.IsAlwaysCallable work }
{
    let mut order = [0u8; FILE_ROOM];
    let Some(request) = read_arguments(rt, program, &mut order) else {
        return;
    };
    let mut file = [0u8; FILE_ROOM];
    let Some(length) = read_bench(rt, program, &mut file) else {
        return;
    };
    if work(&file[..length], request.by, &order[..request.length]).is_err() {
        complain(rt, program, b": cannot write\n");
    }
}
