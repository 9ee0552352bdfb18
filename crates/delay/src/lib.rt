// One delay unit by value: its registers, and its turn on delay memory.
#![tactic(auto)]

ghost use Rattle.std.specs.Prelude.{◌≡◌, ◌≤◌, ◌<◌, ◌/◌, ◌^◌, length};
ghost use Rattle.delay.specs.Delay.{loaded, stored, updated, Ranged, runs, slot, stepped, line_turn, rounding, address, table_turn, delay_turn_of};

// The modes P. They stay numbers, as the functions' codes do: bits of the text in a word of the machine, of which each use asks for one.
pub const INACTIVE: u32 = 0b0000;

pub const LINE: u32 = 0b1000;

pub const TABLE: u32 = 0b1010;

pub const ROUNDED_TABLE: u32 = 0b1011;

#[derive(Clone, Copy)]
pub struct Delay {
    pub x: u32,
    pub y: u32,
    pub z: u32,
    pub p: u32,
    pub first: u32,
    pub second: u32,
    pub third: u32,
}

impl Delay {
    // The unit whose words a part of the machine starts with.
    #[tactic(auto, unfolding(crate::specs::Delay::loaded))]
    pub fn load(m: &[u32]) -> Delay
        requires { 7 ≤ length m.now }
        ensures { result ≡ loaded m.now }
    {
        Delay {
            x: m[layout::DELAY_X] % layout::DELAY_LIMIT,
            y: m[layout::DELAY_Y] % layout::DELAY_LIMIT,
            z: m[layout::DELAY_Z] % layout::DELAY_LIMIT,
            p: m[layout::DELAY_P] % layout::DELAY_MODE_LIMIT,
            first: m[layout::DELAY_FIRST] % layout::WORD_LIMIT,
            second: m[layout::DELAY_SECOND] % layout::WORD_LIMIT,
            third: m[layout::DELAY_THIRD] % layout::WORD_LIMIT,
        }
    }

    // The registers that a turn can change are written back.
    #[tactic(auto, unfolding(crate::specs::Delay::stored))]
    pub fn store(self, m: &mut [u32])
        requires { 7 ≤ length m.old }
        ensures { m.new ≡ stored m.old 0 self }
    {
        m[layout::DELAY_Y] = self.y;
        m[layout::DELAY_FIRST] = self.first;
        m[layout::DELAY_SECOND] = self.second;
        m[layout::DELAY_THIRD] = self.third;
    }

    // Whether unit u doesn't act as inactive in a pass of t processing ticks.
    #[tactic(auto, unfolding(crate::specs::Delay::runs))]
    pub fn runs(self, t: usize, u: usize) -> bool
        ensures { result ≡ runs t u self }
    {
        self.p != INACTIVE && t >= 10 && u < (t - 6) / 4
    }

    // The unit with another Y and other words on their way.
    fn updated(self, y: u32, first: u32, second: u32, third: u32) -> Delay
        ensures { result ≡ updated self y first second third }
    {
        Delay {
            y,
            first,
            second,
            third,
            ..self
        }
    }

    // The slot of a line.
    fn slot(self) -> usize
        requires { Ranged self }
        ensures { result ≡ slot self }
    {
        layout::wide(self.x + self.y)
    }

    // Y after a word: one more, and 0 after Z.
    fn stepped(self) -> u32
        requires { Ranged self }
        ensures { result ≡ stepped self }
    {
        if self.y < self.z { self.y + 1 } else { 0 }
    }

    // A line's turn: the word in the slot leaves just before the new word is put there.
    #[tactic(auto, unfolding(crate::specs::Delay::line_turn))]
    fn line_turn(self, memory: &mut [u32], w: u32) -> Delay
        requires { Ranged self }
        ensures { record { unit = result; memory = memory.new } ≡ line_turn self memory.old w }
    {
        let at = self.slot();
        let leaving = base_guarded::word_at(memory, at);
        base_guarded::put(memory, at, w);
        self.updated(self.stepped(), self.second, leaving, 0)
    }

    // What a table adds to the shifted argument: a rounded one the most significant bit shifted out.
    fn rounding(self, w: u32) -> u32
        ensures { result ≡ rounding self w }
    {
        match self.z % 16 {
            0 => 0,
            n if self.p == ROUNDED_TABLE => (w >> (n - 1)) % 2,
            _ => 0,
        }
    }

    // The address that a table looks up.
    #[tactic(auto, unfolding(crate::specs::Delay::address))]
    fn address(self, w: u32) -> usize
        requires ranged { Ranged self }
        requires w_bound { w < 2 ^ 20 }
        ensures { result ≡ address self w }
    {
        let argument = (w >> (self.z % 16)) + self.rounding(w);
        layout::wide(self.x + argument % layout::DELAY_LIMIT) % layout::MEMORY_WORDS
    }

    // A table's turn: the answer becomes the third word on its way.
    #[tactic(auto, unfolding(crate::specs::Delay::table_turn))]
    fn table_turn(self, memory: &[u32], w: u32) -> Delay
        requires ranged { Ranged self }
        requires w_bound { w < 2 ^ 20 }
        ensures { record { unit = result; memory = memory.now } ≡ table_turn self memory.now w }
    {
        let at = self.address(w);
        let answer = base_guarded::word_at(memory, at);
        self.updated(self.y, self.second, self.third, answer)
    }

    // The turn of a unit that doesn't act as inactive, with a word from the modifier.
    #[tactic(auto, unfolding(crate::specs::Delay::delay_turn_of))]
    pub fn turn(self, memory: &mut [u32], w: u32) -> Delay
        requires ranged { Ranged self }
        requires w_bound { w < 2 ^ 20 }
        ensures { record { unit = result; memory = memory.new } ≡ delay_turn_of self memory.old w }
    {
        if self.p == LINE {
            self.line_turn(memory, w)
        } else {
            self.table_turn(memory, w)
        }
    }
}
