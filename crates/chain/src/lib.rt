// Numbers for a chain of modifiers.
#![tactic(auto)]

ghost use Rattle.std.specs.Prelude.{◌≡◌, ◌≤◌, length, get_or};
ghost use Rattle.base_questions.specs.Refusals.{refused};
ghost use Rattle.base_fills.specs.Fills.{filled};
ghost use Rattle.chain_entries.specs.Entries.{size};
ghost use Rattle.chain_numbers.specs.Earliest.{modifiers, earliest};
ghost use Rattle.chain.specs.Chain.{chain_refusal, chain_of};

use base_questions::Refusal;
use chain_entries::Chain;
use chain_numbers::Numbers;

// The first of questions 14 and 15 that is answered no, if one is. Where none is, the run has the numbers of the entries.
fn refusal(chain: &Chain, found: &mut Numbers) -> Result<(), Refusal>
    requires { length found.old ≡ modifiers }
    ensures value { refused result ≡ chain_refusal (record { entries = chain.now.entries.now; names = chain.now.names.now }) }
    ensures found_after { refused result ≡ 0 → found.new ≡ filled 0 1 (size (record { entries = chain.now.entries.now; names = chain.now.names.now })) (earliest (record { entries = chain.now.entries.now; names = chain.now.names.now })) found.old }
{
    let n = chain.size();
    if !chain.good() {
        return Err(Refusal::ChainEntries);
    }
    if n == 0 {
        return Ok(());
    }
    if layout::MODIFIERS < n {
        return Err(Refusal::ChainNumbers);
    }
    let last = chain_numbers::find(chain, n - 1, found);
    if 127 < last {
        return Err(Refusal::ChainNumbers);
    }
    Ok(())
}

// Puts the first n of the numbers found, and touches no other.
fn put(found: &Numbers, n: usize, numbers: &mut Numbers)
    requires { n ≤ modifiers }
    ensures { numbers.new ≡ filled 0 1 n (λ k. get_or found.now k 0) numbers.old }
{
    for k in 0..n {
        numbers[k] = found[k];
    }
}

// The earliest numbers for a chain. A refused call leaves the run for them as it was.
pub fn chain(chain: &Chain, numbers: &mut Numbers) -> Result<(), Refusal>
    ensures { record { number = refused result; numbers = numbers.new } ≡ chain_of (record { entries = chain.now.entries.now; names = chain.now.names.now }) numbers.old }
{
    let mut found = [0u32; layout::MODIFIERS];
    refusal(chain, &mut found)?;
    put(&found, chain.size(), numbers);
    Ok(())
}
