// A RIFF/WAVE file of two channels of 24-bit PCM: its header and its frames, in a buffer.
#![tactic(auto)]

ghost use Rattle.std.specs.Prelude.{◌≡◌, ◌+◌, ◌*◌, ◌≤◌, ◌<◌, ◌^◌, length};
ghost use Rattle.std.proofs.lemmas.List.Edits.{sets};
ghost use Rattle.file_wave.specs.WaveFormat.{little_endian, frame, frame_bytes, rate_of, riff, format_kind, format_rates, data_head, header, header_bytes};

// How many bytes a frame and the header have.
pub const FRAME_BYTES: usize = 6;

pub const HEADER_BYTES: usize = 44;

// The low k bytes of x, the lowest first. k falls at each call, as in the definition.
fn put_number(out: &mut [u8], at: usize, x: u32, k: u32) -> usize
    requires { at + k ≤ length out.old }
    ensures value { result ≡ at + k }
    ensures out_after { out.new ≡ sets out.old at (little_endian k x) }
{
    if k == 0 {
        return at;
    }
    out[at] = (x % 256) as u8;
    put_number(out, at + 1, x / 256, k - 1)
}

// A frame at the start of a buffer. Answers its length.
pub fn put_frame(out: &mut [u8], left: u32, right: u32) -> usize
    requires frame_bytes_in_bounds { frame_bytes ≤ length out.old }
    requires left_bound { (left < 2 ^ 20) × (right < 2 ^ 20) }
    ensures value { result ≡ length (frame left right) }
    ensures out_after { out.new ≡ sets out.old 0 (frame left right) }
{
    let middle = put_number(out, 0, 16 * left, 3);
    put_number(out, middle, 16 * right, 3)
}

// The rate of passes of n ticks each.
pub fn rate(n: u32) -> u32
    requires { (1 ≤ n) × (n ≤ 1025) }
    ensures { result ≡ rate_of n }
{
    (2000000000 + 195 * n) / (390 * n)
}

// The chunk round the whole.
fn put_riff(out: &mut [u8], bytes: u32) -> usize
    requires { (header_bytes ≤ length out.old) × (bytes < 2 ^ 30) }
    ensures { out.new ≡ sets out.old 0 (riff bytes) }
{
    let a = file_bytes::put(out, 0, b"RIFF");
    let b = put_number(out, a, 36 + bytes, 4);
    file_bytes::put(out, b, b"WAVE")
}

// The start of the chunk of the format.
fn put_format_kind(out: &mut [u8]) -> usize
    requires { header_bytes ≤ length out.old }
    ensures { out.new ≡ sets out.old 12 format_kind }
{
    let a = file_bytes::put(out, 12, b"fmt ");
    let b = put_number(out, a, 16, 4);
    let c = put_number(out, b, 1, 2);
    put_number(out, c, 2, 2)
}

// The rest of it.
fn put_format_rates(out: &mut [u8], rate: u32) -> usize
    requires { (header_bytes ≤ length out.old) × (rate < 2 ^ 24) }
    ensures { out.new ≡ sets out.old 24 (format_rates rate) }
{
    let a = put_number(out, 24, rate, 4);
    let b = put_number(out, a, 6 * rate, 4);
    let c = put_number(out, b, 6, 2);
    put_number(out, c, 24, 2)
}

// The head of the chunk of the frames.
fn put_data_head(out: &mut [u8], bytes: u32) -> usize
    requires { header_bytes ≤ length out.old }
    ensures { out.new ≡ sets out.old 36 (data_head bytes) }
{
    let a = file_bytes::put(out, 36, b"data");
    put_number(out, a, bytes, 4)
}

// All before the frames, at the start of a buffer.
pub fn put_header(out: &mut [u8], rate: u32, bytes: u32)
    requires { (header_bytes ≤ length out.old) × ((rate < 2 ^ 24) × (bytes < 2 ^ 30)) }
    ensures { out.new ≡ sets out.old 0 (header rate bytes) }
{
    put_riff(out, bytes);
    put_format_kind(out);
    put_format_rates(out, rate);
    put_data_head(out, bytes);
}
