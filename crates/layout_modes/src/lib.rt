// The run modes and the oscillator modes of a generator.
#![tactic(auto)]

ghost use Rattle.std.specs.Prelude.{◌≡◌, ◌<◌};
ghost use Rattle.layout_modes.specs.Modes.{rows, output_by, switches_of, built_run, built_oscillator};

// The run modes, by the 1978 text's names.
pub const INACTIVE: u32 = 0b0000;

pub const PAUSE: u32 = 0b0001;

pub const RUNNING_A: u32 = 0b1111;

pub const RUNNING_B: u32 = 0b1110;

pub const RUNNING_C: u32 = 0b1101;

pub const WAIT: u32 = 0b1001;

pub const READ_DATA: u32 = 0b0111;

pub const WRITE_DATA: u32 = 0b0011;

pub const WRITE_DAC: u32 = 0b0010;

// What a generator whose envelope is on does with its P: nothing, add it to the word of its sum, or have the word replaced.
#[derive(Clone, Copy, PartialEq, Eq)]
pub enum Output {
    Silent,
    Adds,
    Replaces,
}

// A run mode's switches: whether its oscillator and its envelope are on, whether its envelope is free, and its output.
#[derive(Clone, Copy, PartialEq, Eq)]
pub struct Switches {
    pub oscillator: bool,
    pub envelope: bool,
    pub free: bool,
    pub output: Output,
}

// The switches of the 16 run modes, by number: oscillator, envelope and free, 1 or 0, and the output, 1 where it adds, 2 where it replaces, else 0.
// Document 01 names this form, a constant table of 16 rows of numbers: so it stays one.
const SWITCHES: [[u8; 4]; 16] = [
    [0, 0, 0, 0],
    [0, 0, 0, 0],
    [0, 0, 0, 0],
    [0, 0, 0, 0],
    [0, 0, 0, 0],
    [0, 0, 0, 0],
    [0, 0, 0, 0],
    [0, 1, 0, 2],
    [0, 0, 0, 0],
    [1, 0, 0, 0],
    [0, 0, 0, 0],
    [0, 0, 0, 0],
    [0, 0, 0, 0],
    [1, 1, 1, 1],
    [1, 1, 1, 1],
    [1, 1, 0, 1],
];

// The built run modes: bit r is 1 where run mode r is built.
pub const BUILT_RUN: u32 = 0b1110_0010_1000_1111;

// The built oscillator modes, in the same way.
pub const BUILT_OSCILLATOR: u32 = 0b0000_0001_0001_1111;

// The output that a row's last number stands for.
fn output_by(number: u8) -> Output
    ensures { result ≡ output_by number }
{
    match number {
        1 => Output::Adds,
        2 => Output::Replaces,
        _ => Output::Silent,
    }
}

// The switches' table, which a caller makes once and hands on.
#[derive(Clone, Copy)]
pub struct Rows {
    table: [[u8; 4]; 16],
    pub ghost right: { table ≡ rows },
}

impl Rows {
    // The table is copied.
    pub fn new() -> Rows {
        Rows { table: SWITCHES }
    }

    // The table's rows.
    pub fn rows(&self) -> &[[u8; 4]; 16]
        ensures { result.now ≡ rows }
    {
        &self.table
    }

    // The switches of a run mode.
    pub fn switches_of(&self, run: u32) -> Switches
        requires { run < 16 }
        ensures { result ≡ switches_of run }
    {
        let row = self.table[run as usize];
        // Not `== 1`, which makes a generator's turn 1.07 times as many instructions.
        Switches {
            oscillator: row[0] != 0,
            envelope: row[1] != 0,
            free: row[2] != 0,
            output: output_by(row[3]),
        }
    }
}

// Whether a run mode is built.
pub fn built_run(r: u32) -> bool
    requires { r < 16 }
    ensures { result ≡ built_run r }
{
    base_words::bit(BUILT_RUN, r)
}

// Whether an oscillator mode is built.
pub fn built_oscillator(s: u32) -> bool
    requires { s < 16 }
    ensures { result ≡ built_oscillator s }
{
    base_words::bit(BUILT_OSCILLATOR, s)
}
