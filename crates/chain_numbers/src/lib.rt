// The earliest number of each entry of a chain of modifiers.
#![tactic(auto)]

ghost use Rattle.std.specs.Prelude.{◌≡◌, true, ◌+◌, ◌*◌, ◌/◌, ◌≤◌, ◌<◌, length, get_or};
ghost use Rattle.base_fills.specs.Fills.{filled};
ghost use Rattle.chain_entries.specs.Entries.{end_of, start_of, names_in, chain_good};
ghost use Rattle.chain_numbers.specs.Earliest.{modifiers, lag, highest, earliest};
ghost use Rattle.chain_numbers.specs.AsCoded.{Waiting};

use chain_entries::Chain;

// Numbers of modifiers, one for each entry: there are no more entries than modifiers.
pub type Numbers = [u32; layout::MODIFIERS];

// How far below its reader an entry that is named must stand.
const EARLY_LAG: u32 = 4;

const LATE_LAG: u32 = 1;

// The lag of entry i.
fn lag_of(chain: &Chain, i: usize) -> u32
    requires { 2 * i + 1 < length chain.now.entries.now }
    ensures { (result ≡ lag chain.now.entries.now i) × (result ≤ 4) }
{
    if chain.entries[2 * i] == 1 {
        return EARLY_LAG;
    }
    LATE_LAG
}

// The highest of a number and of those that stand a lag above the numbers of the n entries named from a place on.
fn above_names(names: &[u32], at: usize, n: usize, numbers: &Numbers, lag: u32, least: u32) -> u32
    requires waiting { Waiting names.now numbers.now at n }
    requires lag_bound { lag ≤ 4 }
    ensures { result ≡ highest (λ j. get_or numbers.now j 0 + lag) names.now at n least }
{
    let mut number = least;
    for k in 0..n {
        let j = layout::wide(names[at + k]);
        number = number.max(numbers[j] + lag);
    }
    number
}

// The number of entry i, at least a given one, by the numbers of the entries that it names.
fn number_of(chain: &Chain, i: usize, numbers: &Numbers, least: u32) -> u32
    requires i_in_bounds { 2 * i + 1 < length chain.now.entries.now }
    requires i_bound { start_of chain.now.entries.now i ≤ end_of chain.now.entries.now i }
    requires waiting { Waiting chain.now.names.now numbers.now (start_of chain.now.entries.now i) (names_in chain.now.entries.now i) }
    ensures { result ≡ highest (λ j. get_or numbers.now j 0 + lag chain.now.entries.now i) chain.now.names.now (start_of chain.now.entries.now i) (names_in chain.now.entries.now i) least }
{
    let from = chain.start(i);
    let to = chain.end(i);
    let lag = lag_of(chain, i);
    above_names(chain.names, from, to - from, numbers, lag, least)
}

// The earliest number of entry i, found from those of the entries that it waits on. They are in the run for the numbers then: the one before it is found first, and with it all before that.
// Document 02 names this form, a function that calls itself once, for the entry before, with its place falling: so it stays recursive.
pub fn find(chain: &Chain, i: usize, numbers: &mut Numbers) -> u32
    requires names_value { chain_good (record { entries = chain.now.entries.now; names = chain.now.names.now }) ≡ true }
    requires i_in_bounds { i < length chain.now.entries.now / 2 }
    requires i_lt_modifiers { (i < modifiers) × (length numbers.old ≡ modifiers) }
    ensures value { result ≡ earliest (record { entries = chain.now.entries.now; names = chain.now.names.now }) i }
    ensures numbers_after { numbers.new ≡ filled 0 1 (i + 1) (earliest (record { entries = chain.now.entries.now; names = chain.now.names.now })) numbers.old }
{
    if i == 0 {
        numbers[0] = 0;
        return 0;
    }
    let previous = i - 1;
    let before = find(chain, previous, numbers);
    let least = before + 1;
    let number = number_of(chain, i, numbers, least);
    numbers[i] = number;
    number
}
