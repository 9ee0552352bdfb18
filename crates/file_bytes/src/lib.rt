// Runs of bytes: one put into another, and what is sought in one.
#![tactic(auto)]

ghost use Rattle.std.specs.Prelude.{◌≡◌, ◌+◌, ◌≤◌, length};
ghost use Rattle.std.proofs.lemmas.List.Edits.{sets};
ghost use Rattle.file_bytes.specs.Bytes.{starts_with, bytes_before};

// Puts a text into a buffer from a place on, and answers the place after it.
pub fn put(out: &mut [u8], at: usize, bytes: &[u8]) -> usize
    requires { at + length bytes.now ≤ length out.old }
    ensures value { result ≡ at + length bytes.now }
    ensures out_after { out.new ≡ sets out.old at bytes.now }
{
    let end = at + bytes.len();
    out[at..end].copy_from_slice(bytes);
    end
}

// Whether a text starts with another.
pub fn starts(bytes: &[u8], start: &[u8]) -> bool
    ensures { result ≡ starts_with bytes.now start.now }
{
    bytes.starts_with(start)
}

// How many bytes stand before the first byte x. A place and a length are one number here: `position`, an Option, would have to be turned back.
pub fn find(bytes: &[u8], x: u8) -> usize
    ensures { result ≡ bytes_before x bytes.now }
{
    for (i, &b) in bytes.iter().enumerate() {
        if b == x {
            return i;
        }
    }
    bytes.len()
}
