// The fields of a command, by the 1978 text's numbers of its bits, 4 to 35 from the left.
#![tactic(auto)]

ghost use Rattle.std.specs.Prelude.{◌≡◌, ◌+◌, ◌<◌, ◌≤◌};
ghost use Rattle.command_fields.specs.Fields.{field, flag};

// The bits first to last of a command, at most 31 of them.
pub fn field(c: u32, first: u32, last: u32) -> u32
    requires { (4 ≤ first) × (first ≤ last) × (last ≤ 35) × (last < first + 31) }
    ensures { result ≡ field first last c }
{
    (c >> (35 - last)) % (1 << (last + 1 - first))
}

// Whether bit b is 1.
pub fn flag(c: u32, b: u32) -> bool
    requires { (4 ≤ b) × (b ≤ 35) }
    ensures { result ≡ flag b c }
{
    (c >> (35 - b)) % 2 == 1
}
