// Words of 32 bits in a run of bytes, four to a word, the lowest first: how the test programs read and answer.
#![tactic(auto)]

ghost use Rattle.std.specs.Prelude.{◌≡◌, ◌+◌, ◌*◌, ◌≤◌, length};
ghost use Rattle.std.proofs.lemmas.List.Edits.{sets};
ghost use Rattle.trial_octets.specs.AsCoded.{word_at, bytes_of};

use std::io::Read;

// Word i of a run of bytes.
#[tactic(auto, unfolding(crate::specs::AsCoded::word_at))]
pub fn word_at(b: &[u8], i: usize) -> u32
    requires { 4 * i + 4 ≤ length b.now }
    ensures { result ≡ word_at b.now i }
{
    let at = 4 * i;
    u32::from_le_bytes([b[at], b[at + 1], b[at + 2], b[at + 3]])
}

// Word i of a run of bytes is written.
#[tactic(auto, unfolding(crate::specs::AsCoded::bytes_of))]
pub fn put_word_at(b: &mut [u8], i: usize, x: u32)
    requires { 4 * i + 4 ≤ length b.old }
    ensures { b.new ≡ sets b.old (4 * i) (bytes_of x) }
{
    let at = 4 * i;
    b[at..at + 4].copy_from_slice(&x.to_le_bytes());
}

// Reads until the buffer is full, the input ends or a read fails: how many bytes stand at its start.
pub fn read_full<R: Read>(input: &mut R, buffer: &mut [u8]) -> usize
    ensures { result ≤ length buffer.new }
{
    let mut done = 0;
    while done < buffer.len()
        && let Ok(n) = input.read(&mut buffer[done..])
        && 0 < n
    {
        done += n;
    }
    done
}
