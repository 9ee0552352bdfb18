// The modes of a generator of the older text.
#![tactic(auto)]

ghost use Rattle.std.specs.Prelude.{◌≡◌};
ghost use Rattle.layout_old_modes.specs.OldModes.{old_run_mode};

// The run modes 000 to 111, from the right, each by the number of the 1978 one that it is switched as.
const SWITCHED_AS: u32 = 0x27D9_EF10;

// The run mode in the 1978 coding. 111 is write DAC, 0010, and with a negative GN the next number, write data.
pub fn run_mode(gmode: u32, gn: u32) -> u32
    ensures { result ≡ old_run_mode gmode gn }
{
    let run = gmode / 32 % 8;
    (SWITCHED_AS >> (4 * run)) % 16 + (run + gn / 1024 % 2) / 8
}
