// Words of a run that the caller holds, read and written with a guard.
#![tactic(auto)]

ghost use Rattle.std.specs.Prelude.{◌≡◌, get_or, set};

// The word at a place, and 0 past the end.
pub fn word_at(run: &[u32], at: usize) -> u32
    ensures { result ≡ get_or run.now at 0 }
{
    run.get(at).copied().unwrap_or(0)
}

// Puts a word at a place; past the end nothing is written.
pub fn put(run: &mut [u32], at: usize, w: u32)
    ensures { run.new ≡ set run.old at w }
{
    // `get_mut` says nothing of the run after a write: with it `run.new ≡ set run.old at w` stayed open.
    if at < run.len() {
        run[at] = w;
    }
}
