// A change of one partial: of a generator's GMODE, GSUM, GFM or DAC number, or of T by one.
#![tactic(auto)]

ghost use Rattle.std.specs.Prelude.{◌≡◌, true, length, ◌<◌, ◌≤◌};
ghost use Rattle.layout.specs.Layout.{machine_length, generators};
ghost use Rattle.layout.specs.Machine.{Reaches, ticks_of};
ghost use Rattle.machine.specs.Questions.{valid, good_gmode};
ghost use Rattle.layout_texts.specs.declared.Text.TheVariants.{Of1978};
ghost use Rattle.machine_change.specs.Change.{register_changed, with_ticks, changed_by, concerned};
ghost use Rattle.machine_change.specs.Kinds.{kind_of, change_of_kind, of_numbers};
ghost use Rattle.machine_change.specs.AsCoded.{value_fits, let_through};

// A generator's register that a change sets; of GO the DAC number alone.
#[derive(Clone, Copy, PartialEq, Eq, Debug)]
pub enum Register {
    Gmode,
    Gsum,
    Gfm,
    Dac,
}

// A change of one partial: a register's new value, or one tick more or fewer.
#[derive(Clone, Copy, PartialEq, Eq, Debug)]
pub enum PartialChange {
    Sets {
        register: Register,
        generator: u32,
        value: u32,
    },
    TickMore,
    TickFewer,
}

// The change that three numbers of a host in C ask for, if there is one: the kinds are numbered from 0 to 5.
pub fn of_numbers(kind: u32, generator: u32, value: u32) -> Option<PartialChange>
    ensures { result ≡ of_numbers (record { kind = kind; generator = generator; value = value }) }
{
    let register = match kind {
        0 => Register::Gmode,
        1 => Register::Gsum,
        2 => Register::Gfm,
        3 => Register::Dac,
        4 => return Some(PartialChange::TickMore),
        5 => return Some(PartialChange::TickFewer),
        _ => return None,
    };
    Some(PartialChange::Sets {
        register,
        generator,
        value,
    })
}

// Ten bits with built modes.
fn built_gmode(gmode: u32) -> bool
    ensures { result ≡ good_gmode Of1978 gmode }
{
    if layout::GMODE_LIMIT <= gmode {
        return false;
    }
    layout_modes::built_run(gmode / 64) & layout_modes::built_oscillator(gmode % 16)
}

// Whether a register's value fits.
fn value_fits(register: Register, value: u32) -> bool
    ensures { result ≡ value_fits (kind_of register) value }
{
    match register {
        Register::Gmode => built_gmode(value),
        Register::Gsum => value < layout::GSUM_LIMIT,
        Register::Gfm => value < layout::GFM_LIMIT,
        Register::Dac => value < 16,
    }
}

// Whether the changed machine passes question 2, of a machine that does.
pub fn let_through(m: &[u32], change: PartialChange) -> bool
    requires { Reaches m.now }
    ensures { result ≡ let_through m.now (change_of_kind change) }
{
    match change {
        PartialChange::TickMore => m[layout::T_AT] < 256,
        PartialChange::TickFewer => 1 < m[layout::T_AT],
        PartialChange::Sets {
            register,
            generator,
            value,
        } => (generator < 256) & value_fits(register, value),
    }
}

// The generator that a change concerns.
pub fn concerned(m: &[u32], change: PartialChange) -> usize
    requires reaches { Reaches m.now }
    requires bound { 1 ≤ ticks_of m.now }
    ensures { result ≡ concerned m.now (change_of_kind change) }
{
    let t = layout::ticks(m);
    match change {
        PartialChange::TickMore => t,
        PartialChange::TickFewer => t - 1,
        PartialChange::Sets { generator, .. } => layout::wide(generator),
    }
}

// T is set, and the update ticks of it.
fn set_ticks(m: &mut [u32], t: u32)
    requires { Reaches m.old }
    ensures { m.new ≡ with_ticks m.old t }
{
    let n = m[layout::N_AT];
    m[layout::T_AT] = t;
    m[layout::UPDATE_TICKS_AT] = layout::update_ticks(t, n);
}

// A generator's register is set; of GO the low 4 bits alone.
fn set_register(m: &mut [u32], register: Register, generator: u32, value: u32)
    requires m_len { (length m.old ≡ machine_length) × (valid Of1978 m.old ≡ true) }
    requires generator_lt_generators { (generator < generators) × (value_fits (kind_of register) value ≡ true) }
    ensures { m.new ≡ register_changed m.old (record { kind = kind_of register; generator = generator; value = value }) }
{
    let at = layout::GENERATOR_WORDS * layout::wide(generator);
    match register {
        Register::Gmode => m[at + layout::GMODE] = value,
        Register::Gsum => m[at + layout::GSUM] = value,
        Register::Gfm => m[at + layout::GFM] = value,
        Register::Dac => m[at + layout::GO] = m[at + layout::GO] / 16 * 16 + value,
    }
}

// The change is made.
pub fn make(m: &mut [u32], change: PartialChange)
    requires m_len { (length m.old ≡ machine_length) × (valid Of1978 m.old ≡ true) }
    requires value_value { let_through m.old (change_of_kind change) ≡ true }
    ensures { m.new ≡ changed_by m.old (change_of_kind change) }
{
    let t = m[layout::T_AT];
    match change {
        PartialChange::TickMore => set_ticks(m, t + 1),
        PartialChange::TickFewer => set_ticks(m, t - 1),
        PartialChange::Sets {
            register,
            generator,
            value,
        } => set_register(m, register, generator, value),
    }
}

// The same three of the change that three numbers ask for: where there is none, nothing is let through.
pub fn let_through_by_numbers(m: &[u32], kind: u32, generator: u32, value: u32) -> bool
    requires { Reaches m.now }
    ensures { result ≡ let_through m.now (record { kind = kind; generator = generator; value = value }) }
{
    match of_numbers(kind, generator, value) {
        Some(change) => let_through(m, change),
        None => false,
    }
}

pub fn concerned_by_numbers(m: &[u32], kind: u32, generator: u32) -> usize
    requires reaches { Reaches m.now }
    requires bound { 1 ≤ ticks_of m.now }
    ensures { result ≡ concerned m.now (record { kind = kind; generator = generator; value = 0 }) }
{
    match of_numbers(kind, generator, 0) {
        Some(change) => concerned(m, change),
        None => layout::wide(generator),
    }
}

pub fn make_by_numbers(m: &mut [u32], kind: u32, generator: u32, value: u32)
    requires m_len { (length m.old ≡ machine_length) × (valid Of1978 m.old ≡ true) }
    requires value_value { let_through m.old (record { kind = kind; generator = generator; value = value }) ≡ true }
    ensures { m.new ≡ changed_by m.old (record { kind = kind; generator = generator; value = value }) }
{
    match of_numbers(kind, generator, value) {
        Some(change) => make(m, change),
        None => {}
    }
}
