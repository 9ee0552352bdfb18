// The codes that are built: functions of a modifier, modes of a delay unit.
#![tactic(auto)]

ghost use Rattle.std.specs.Prelude.{◌≡◌, ◌<◌};
ghost use Rattle.layout_codes.specs.BuiltCodes.{built_function, old_built_function, built_mode};

// Bit f is 1 where function f of a modifier is built.
pub const BUILT_FUNCTION: u32 = 0b0011_1111_0101_0011_1011_1011_1101_1101;

// Bit f is 1 where function f of a modifier of the older text is built.
pub const OLD_BUILT_FUNCTION: u32 = 0b0000_0000_0000_0001_0111_0111_1111_1111;

// Bit p is 1 where mode p of a delay unit is built.
pub const BUILT_MODE: u32 = 0b0000_1101_0000_0001;

// Whether a function is built.
pub fn built_function(f: u32) -> bool
    requires { f < 32 }
    ensures { result ≡ built_function f }
{
    base_words::bit(BUILT_FUNCTION, f)
}

// Whether a function of the older text is built.
pub fn old_built_function(f: u32) -> bool
    requires { f < 32 }
    ensures { result ≡ old_built_function f }
{
    base_words::bit(OLD_BUILT_FUNCTION, f)
}

// Whether a mode is built.
pub fn built_mode(p: u32) -> bool
    requires { p < 16 }
    ensures { result ≡ built_mode p }
{
    base_words::bit(BUILT_MODE, p)
}
