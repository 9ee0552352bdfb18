// The lines that are printed, as text in a buffer.
#![tactic(auto)]

ghost use Rattle.std.specs.Prelude.{◌≡◌, ◌+◌, ◌≤◌, ◌<◌, ◌^◌, length};
ghost use Rattle.std.proofs.lemmas.List.Edits.{sets};
ghost use Rattle.file_printed.specs.Text.{line_bytes, digits, named, signed_decimal, pass_line, refusal_line, order_refusal_line};

// The length of a buffer for one line.
pub const LINE_BYTES: usize = 64;

// The decimal digits of n, at most k of them. k falls at each call, as in the definition.
fn put_digits(line: &mut [u8; LINE_BYTES], at: usize, n: u32, k: u32) -> usize
    requires { at + k ≤ line_bytes }
    ensures value { result ≡ at + length (digits k n) }
    ensures line_after { line.new ≡ sets line.old at (digits k n) }
{
    if k == 0 {
        return at;
    }
    if n < 10 {
        line[at] = b'0' + n as u8;
        return at + 1;
    }
    let next = put_digits(line, at, n / 10, k - 1);
    line[next] = b'0' + (n % 10) as u8;
    next + 1
}

// A name and a number in decimal.
pub fn put_named(line: &mut [u8; LINE_BYTES], at: usize, name: &[u8], n: u32) -> usize
    requires { at + length name.now + 10 ≤ line_bytes }
    ensures value { result ≡ at + length (named name.now n) }
    ensures line_after { line.new ≡ sets line.old at (named name.now n) }
{
    let next = file_bytes::put(line, at, name);
    put_digits(line, next, n, 10)
}

// A word of 20 bits in two's complement as a signed number.
fn put_signed(line: &mut [u8; LINE_BYTES], at: usize, n: u32) -> usize
    requires { (at + 11 ≤ line_bytes) × (n < 2 ^ 20) }
    ensures value { result ≡ at + length (signed_decimal n) }
    ensures line_after { line.new ≡ sets line.old at (signed_decimal n) }
{
    if n < 524288 {
        return put_digits(line, at, n, 10);
    }
    let next = file_bytes::put(line, at, b"-");
    put_digits(line, next, 1048576 - n, 10)
}

// The line of a pass: the counter, then DAC 0 and DAC 1. Answers its length.
pub fn pass_line(line: &mut [u8; LINE_BYTES], counter: u32, left: u32, right: u32) -> usize
    requires { (left < 2 ^ 20) × (right < 2 ^ 20) }
    ensures value { result ≡ length (pass_line counter left right) }
    ensures line_after { line.new ≡ sets line.old 0 (pass_line counter left right) }
{
    let a = put_named(line, 0, b"pass=", counter);
    let b = file_bytes::put(line, a, b" left=");
    let c = put_signed(line, b, left);
    let d = file_bytes::put(line, c, b" right=");
    let e = put_signed(line, d, right);
    file_bytes::put(line, e, b"\n")
}

// The line of a refusal. Answers its length.
pub fn refusal_line(line: &mut [u8; LINE_BYTES], n: u32) -> usize
    ensures value { result ≡ length (refusal_line n) }
    ensures line_after { line.new ≡ sets line.old 0 (refusal_line n) }
{
    let a = put_named(line, 0, b"refused=", n);
    file_bytes::put(line, a, b"\n")
}

// The line of a text that is no order file. Answers its length.
pub fn order_refusal_line(line: &mut [u8; LINE_BYTES], n: u32) -> usize
    ensures value { result ≡ length (order_refusal_line n) }
    ensures line_after { line.new ≡ sets line.old 0 (order_refusal_line n) }
{
    let a = put_named(line, 0, b"order-refused=", n);
    file_bytes::put(line, a, b"\n")
}
