// The lines of a bench file.
#![tactic(auto)]

ghost use Rattle.std.specs.Prelude.{◌≡◌, ◌+◌};
ghost use Rattle.std.specs.Iterator.{YieldsFirstRef, item_count};
ghost use Rattle.file_numbers.specs.Numbers.{decimal_in, hexadecimal_in};
ghost use Rattle.file_lines.specs.Lines.{most_passes, line_by, word_line, title_of, line_of, lines_of, ended};

use layout_texts::Text;

// A line of a bench file, or another. A title names a text, or none that is known.
#[derive(Clone, Copy)]
pub enum Line {
    Titled(Option<Text>),
    Passes(u32),
    Word(usize, u32),
    Command(u32),
    Other,
}

// The most bytes that a bench file has.
pub const FILE_BYTES: usize = 65536;

// The most passes that it asks for.
pub const MOST_PASSES: u64 = 65535;

// What follows `passes=`.
fn passes(file: &[u8]) -> Line
    ensures { result ≡ line_by (decimal_in (most_passes + 1) file.now) (λ n. Line.Passes n) }
{
    match file_numbers::decimal(file, MOST_PASSES + 1) {
        Some(n) => Line::Passes(n),
        None => Line::Other,
    }
}

// What follows `word=`: PLACE:VALUE.
fn word(file: &[u8]) -> Line
    ensures { result ≡ word_line file.now }
{
    let k = file_bytes::find(file, b':');
    if file.len() <= k {
        return Line::Other;
    }
    let Some(place) = file_numbers::decimal(&file[..k], layout::FILE_PLACES as u64) else {
        return Line::Other;
    };
    let Some(value) = file_numbers::decimal(&file[k + 1..], file_numbers::WORD_VALUES) else {
        return Line::Other;
    };
    Line::Word(place as usize, value)
}

// What follows `command=`.
fn command(file: &[u8]) -> Line
    ensures { result ≡ line_by (hexadecimal_in file.now) (λ c. Line.Command c) }
{
    match file_numbers::hexadecimal(file) {
        Some(c) => Line::Command(c),
        None => Line::Other,
    }
}

// The text that a value names, if it is known.
#[tactic(auto, unfolding(crate::specs::Lines::title_of))]
fn titled(value: &[u8]) -> Option<Text>
    ensures { result ≡ title_of value.now }
{
    match value {
        b"1978" => Some(Text::Of1978),
        b"old" => Some(Text::Old),
        _ => None,
    }
}

// A line, without its LF.
pub fn read_line(file: &[u8]) -> Line
    ensures { result ≡ line_of file.now }
{
    if let Some(number) = file.strip_prefix(b"passes=") {
        return passes(number);
    }
    if let Some(pair) = file.strip_prefix(b"word=") {
        return word(pair);
    }
    if let Some(digits) = file.strip_prefix(b"command=") {
        return command(digits);
    }
    if let Some(value) = file.strip_prefix(b"text=") {
        return Line::Titled(titled(value));
    }
    Line::Other
}

// What is left of a file, line by line, each without its LF.
#[derive(Drop)]
pub struct Lines<'a>(pub &'a [u8]);

impl<'a> Iterator for Lines<'a> {
    type Item = &'a [u8];

    ghost next_gives = { YieldsFirstRef (λ s. lines_of s.0.now) };

    ghost remaining = { item_count (λ s. lines_of s.0.now) };

    fn next(&mut self) -> Option<&'a [u8]> {
        let left = self.0;
        if left.is_empty() {
            return None;
        }
        let k = file_bytes::find(left, b'\n');
        if left.len() <= k {
            self.0 = &left[left.len()..];
            return Some(left);
        }
        self.0 = &left[k + 1..];
        Some(&left[..k])
    }
}

// Whether a file has at most 65,536 bytes and ends in LF.
pub fn ended(file: &[u8]) -> bool
    ensures { result ≡ ended file.now }
{
    let n = file.len();
    if FILE_BYTES < n {
        return false;
    }
    if n == 0 {
        return false;
    }
    file[n - 1] == b'\n'
}
