// Runs of words, filled at places a step apart.
#![tactic(auto)]

ghost use Rattle.std.specs.Prelude.{◌≡◌, ◌+◌, ◌*◌, ◌<◌, ◌^◌, length};
ghost use Rattle.base_fills.specs.Fills.{filled};

// Puts a count at n places, the first at a place and each a step after the one before: it starts with a number and goes on by another.
pub fn count(run: &mut [u32], at: usize, step: usize, n: usize, first: u32, by: u32)
    requires { (at + step * n < length run.old + step) × (first + by * n < 2 ^ 32) }
    ensures { run.new ≡ filled at step n (λ k. first + by * k) run.old }
{
    let mut word = first;
    for k in 0..n {
        run[at + step * k] = word;
        word += by;
    }
}

// Puts one word at n places, the first at a place and each a step after the one before.
pub fn fill(run: &mut [u32], at: usize, step: usize, n: usize, word: u32)
    requires { at + step * n < length run.old + step }
    ensures { run.new ≡ filled at step n (λ k. word) run.old }
{
    count(run, at, step, n, word, 0);
}
