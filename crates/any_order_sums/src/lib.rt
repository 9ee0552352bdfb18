// Counts of generators kept as a run of words with sums of them, brought up to date one count at a time.
#![tactic(auto)]

ghost use Rattle.std.specs.Prelude.{◌≡◌, ◌^◌, ◌<◌, slice_index};
ghost use Rattle.layout.specs.Layout.{dacs, quadrant_words};
ghost use Rattle.layout.specs.Widths.{gfm_bits};
ghost use Rattle.any_order_sums.specs.Places.{readers_at, adders_at, writers_at, feeders_at, others_at, kept_length};
ghost use Rattle.any_order_sums.specs.AsCoded.{step_of, stepped, moved, moved_if, other_kind, fed_moved, kind_moved};

// Where the counts of 0111s and of adding generators by sum word stand, of writers by GFM, and of feeders by DAC and GFM;
// of the generators that are none of these; of all 0111s; of the generators that wait and have a lower neighbour that can trigger.
pub const READERS_AT: usize = 0;

pub const ADDERS_AT: usize = 64;

pub const WRITERS_AT: usize = 128;

pub const FEEDERS_AT: usize = 256;

pub const OTHERS_AT: usize = 2304;

pub const ALL_READERS_AT: usize = 2305;

pub const AWAITING_AT: usize = 2306;

// Where the sums stand: from how many GFMs each DAC is fed, from how many data are written, how many DACs are fed from more than one,
// how many sum words have a 0111 and an adding generator. Then the answer: 1 where every order leaves the same, else 0.
pub const FED_AT: usize = 2307;

pub const WRITTEN_AT: usize = 2323;

pub const PARTED_AT: usize = 2324;

pub const SHARED_AT: usize = 2325;

pub const ORDER_FREE_AT: usize = 2326;

pub const KEPT: usize = 2327;

// The GFMs: as many counts as each DAC has.
pub const SOURCES: usize = 128;

pub type Kept = [u32; KEPT];

// What a word that is raised or lowered by 1 gets added.
fn step(up: bool) -> u32
    ensures { result ≡ step_of up }
{
    if up { 1 } else { 4294967295 }
}

// The word at place i is raised or lowered by 1. What it then is.
pub fn shift(kept: &mut Kept, i: usize, up: bool) -> u32
    requires { i < kept_length }
    ensures kept_after { kept.new ≡ moved up kept.old i }
    ensures value { result ≡ stepped up (slice_index kept.old i) }
{
    let n = kept[i].wrapping_add(step(up));
    kept[i] = n;
    n
}

// The same, if it is to be.
pub fn shift_if(kept: &mut Kept, i: usize, up: bool, moves: bool)
    requires { i < kept_length }
    ensures { kept.new ≡ moved_if moves up kept.old i }
{
    if !moves {
        return;
    }
    shift(kept, i, up);
}

// One source more or fewer feeds DAC d.
fn shift_fed(kept: &mut Kept, d: usize, up: bool)
    requires { d < dacs }
    ensures { kept.new ≡ fed_moved up kept.old d }
{
    let n = shift(kept, FED_AT + d, up);
    shift_if(kept, PARTED_AT, up, n == 1 + up as u32);
}

// One generator more or fewer of the kind at place i, which is by sum word; the other kind on the same word stands at place other.
// That one is looked at first: on most words it is not there.
fn shift_on_word(kept: &mut Kept, i: usize, other: usize, up: bool)
    requires { (i < writers_at 0) × (other ≡ other_kind i) }
    ensures { kept.new ≡ kind_moved up kept.old i }
{
    let n = shift(kept, i, up);
    if kept[other] == 0 {
        return;
    }
    shift_if(kept, SHARED_AT, up, n == up as u32);
}

// One 0111 of word w more or fewer, with the sums. This and the next name the two places of `shift_on_word`, which serves both: a kind handed in for them is no plainer.
pub fn shift_reader(kept: &mut Kept, w: usize, up: bool)
    requires { w < quadrant_words }
    ensures { kept.new ≡ kind_moved up kept.old (readers_at w) }
{
    shift_on_word(kept, READERS_AT + w, ADDERS_AT + w, up);
}

// One adding generator of word w more or fewer, with the sums.
pub fn shift_adder(kept: &mut Kept, w: usize, up: bool)
    requires { w < quadrant_words }
    ensures { kept.new ≡ kind_moved up kept.old (adders_at w) }
{
    shift_on_word(kept, ADDERS_AT + w, READERS_AT + w, up);
}

// One writer from source v more or fewer, with the sums.
pub fn shift_writer(kept: &mut Kept, v: usize, up: bool)
    requires { v < 2 ^ gfm_bits }
    ensures { kept.new ≡ kind_moved up kept.old (writers_at v) }
{
    let n = shift(kept, WRITERS_AT + v, up);
    if n == up as u32 {
        shift(kept, WRITTEN_AT, up);
    }
}

// One feeder of DAC d from source v more or fewer, with the sums.
pub fn shift_feeder(kept: &mut Kept, d: usize, v: usize, up: bool)
    requires { (d < dacs) × (v < 2 ^ gfm_bits) }
    ensures { kept.new ≡ kind_moved up kept.old (feeders_at d v) }
{
    let n = shift(kept, FEEDERS_AT + SOURCES * d + v, up);
    if n == up as u32 {
        shift_fed(kept, d, up);
    }
}

// One generator more or fewer that is none of these: no sum moves.
pub fn shift_other(kept: &mut Kept, up: bool)
    ensures { kept.new ≡ kind_moved up kept.old others_at }
{
    shift(kept, OTHERS_AT, up);
}
