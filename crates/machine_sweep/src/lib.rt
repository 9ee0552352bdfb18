// A run of units of so many words each, word j of every unit being column j: what the words of a column are below, and what a field of them is.
#![tactic(auto)]

ghost use Rattle.std.specs.Prelude.{◌≡◌, false, ◌+◌, ◌*◌, ◌/◌, ◌%◌, ◌^◌, ◌<◌, ◌≤◌, ltb, length, get_or};
ghost use Rattle.machine_sweep.specs.AsCoded.{every_word, rows_below, swept, flags_of};

// Eight rows of words, one for each limit. The limits are powers of two, so that the or of a column's eight words tells of them all.
fn rows_below(limits: &[u32], m: &[u32], at: usize) -> bool
    requires { at + 8 * length limits.now ≤ length m.now }
    ensures { result ≡ rows_below limits.now m.now at (length limits.now) }
{
    let w = limits.len();
    let mut ok = true;
    for i in 0..w {
        let x = m[at + i]
            | m[at + w + i]
            | m[at + 2 * w + i]
            | m[at + 3 * w + i]
            | m[at + 4 * w + i]
            | m[at + 5 * w + i]
            | m[at + 6 * w + i]
            | m[at + 7 * w + i];
        ok = (x < limits[i]) & ok;
    }
    ok
}

// The or-ing sweep over so many times eight rows from a place on.
pub fn swept(limits: &[u32], m: &[u32], at: usize, times: usize) -> bool
    requires { at + 8 * length limits.now * times ≤ length m.now }
    ensures { result ≡ swept limits.now m.now at times }
{
    let rows = 8 * limits.len();
    let mut ok = true;
    for k in 0..times {
        ok = rows_below(limits, m, at + rows * k) & ok;
    }
    ok
}

// One word of each of n units, the first at a place, below a limit of any kind.
pub fn words_below(m: &[u32], at: usize, step: usize, n: usize, limit: u32) -> bool
    requires { at + step * n < length m.now + step }
    ensures { result ≡ every_word (λ x. ltb x limit) m.now at step 0 n }
{
    let mut ok = true;
    for k in 0..n {
        ok = (m[at + step * k] < limit) & ok;
    }
    ok
}

// The flags of the numbers below N: flag k is bit k of a mask.
pub fn flags<const N: usize>(mask: u32) -> [bool; N]
    requires { N ≤ 32 }
    ensures { result ≡ flags_of mask N }
{
    let mut t = [false; N];
    for k in 0..N {
        t[k] = base_words::bit(mask, k as u32);
    }
    t
}

// The bits from `shift` on, as many as N flags need, in one word of each of n units: what they say has its flag.
pub fn flagged<const N: usize>(
    t: &[bool; N],
    m: &[u32],
    at: usize,
    step: usize,
    n: usize,
    shift: u32,
) -> bool
    requires some { 0 < N }
    requires inside { at + step * n < length m.now + step }
    requires within { shift < 32 }
    ensures { result ≡ every_word (λ x. get_or t.now (x / 2 ^ shift % N) false) m.now at step 0 n }
{
    let mut ok = true;
    for k in 0..n {
        let i = (m[at + step * k] >> shift) as usize % N;
        ok = t[i] & ok;
    }
    ok
}

// One word of each of n units, by as many of its right bits as there are flags, of a table of any length: each has its flag.
pub fn words_flagged(t: &[bool], m: &[u32], at: usize, step: usize, n: usize) -> bool
    requires some { 0 < length t.now }
    requires inside { at + step * n < length m.now + step }
    ensures { result ≡ every_word (λ x. get_or t.now (x % length t.now) false) m.now at step 0 n }
{
    let mut ok = true;
    for k in 0..n {
        let i = m[at + step * k] as usize % t.len();
        ok = t[i] & ok;
    }
    ok
}
