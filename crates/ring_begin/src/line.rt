// The line of a refusal.

ghost use Rattle.std.specs.Prelude.{◌≡◌, ◌≤◌, take};
ghost use Rattle.base_questions.specs.Refusals.{number_of};
ghost use Rattle.file_printed.specs.Text.{line_bytes, refusal_line, order_refusal_line};

use base_questions::Refusal;
use file_printed::LINE_BYTES;

// A line, as the first bytes of its buffer.
#[derive(Clone, Copy)]
pub struct Line {
    pub buffer: [u8; LINE_BYTES],
    pub length: usize,
    ghost fits: { length ≤ line_bytes },
}

impl Line {
    // That of a ringing, or of a bench file, that a question refuses.
    pub fn refused(refusal: Refusal) -> Line
        ensures { take result.length result.buffer ≡ refusal_line (number_of refusal) }
    {
        let mut buffer = [0u8; LINE_BYTES];
        let length = file_printed::refusal_line(&mut buffer, u32::from(refusal));
        Line { buffer, length }
    }

    // That of an order file that a question refuses.
    pub fn order_refused(refusal: Refusal) -> Line
        ensures { take result.length result.buffer ≡ order_refusal_line (number_of refusal) }
    {
        let mut buffer = [0u8; LINE_BYTES];
        let length = file_printed::order_refusal_line(&mut buffer, u32::from(refusal));
        Line { buffer, length }
    }

    // Its bytes.
    pub fn bytes(&self) -> &[u8]
        ensures { result.now ≡ take self.now.length self.now.buffer }
    {
        &self.buffer[..self.length]
    }
}
