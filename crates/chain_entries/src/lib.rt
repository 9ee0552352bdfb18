// The list of entries for a chain of modifiers, and whether it fits.
#![tactic(auto)]

ghost use Rattle.std.specs.Prelude.{◌≡◌, ◌+◌, ◌*◌, ◌≤◌, ◌<◌, length};
ghost use Rattle.base_lists.specs.Lists.{all_below};
ghost use Rattle.chain_entries.specs.Entries.{size, end_of, start_of, names_below, entry_good, chain_good};

// A chain as it is handed in, two runs of words. Each entry has two words of the first: 1 where its read is early and 0 where it is late,
// and where its names end in the second.
#[derive(Clone, Copy)]
pub struct Chain<'a> {
    pub entries: &'a [u32],
    pub names: &'a [u32],
}

impl<'a> Chain<'a> {
    // How many entries there are.
    pub fn size(&self) -> usize
        ensures { result ≡ size (record { entries = self.now.entries.now; names = self.now.names.now }) }
    {
        self.entries.len() / 2
    }

    // Where the names of entry i end in the run of names.
    pub fn end(&self, i: usize) -> usize
        requires { 2 * i + 1 < length self.now.entries.now }
        ensures { result ≡ end_of self.now.entries.now i }
    {
        layout::wide(self.entries[2 * i + 1])
    }

    // Where they begin.
    pub fn start(&self, i: usize) -> usize
        requires { 2 * i ≤ length self.now.entries.now }
        ensures { result ≡ start_of self.now.entries.now i }
    {
        if i == 0 {
            return 0;
        }
        self.end(i - 1)
    }

    // Whether each of n names from a place on is below i.
    fn names_below(&self, at: usize, n: usize, i: usize) -> bool
        requires { at + n ≤ length self.now.names.now }
        ensures { result ≡ names_below self.now.names.now at n i }
    {
        let names = &self.names[at..at + n];
        (0..n).all(|k| layout::wide(names[k]) < i)
    }

    // Whether entry i fits.
    fn entry_good(&self, i: usize) -> bool
        requires { 2 * i + 1 < length self.now.entries.now }
        ensures { result ≡ entry_good (record { entries = self.now.entries.now; names = self.now.names.now }) i }
    {
        let from = self.start(i);
        let to = self.end(i);
        if 1 < self.entries[2 * i] {
            return false;
        }
        if to < from {
            return false;
        }
        if self.names.len() < to {
            return false;
        }
        self.names_below(from, to - from, i)
    }

    // Whether every entry fits.
    fn entries_good(&self) -> bool
        ensures { result ≡ all_below (entry_good (record { entries = self.now.entries.now; names = self.now.names.now })) (size (record { entries = self.now.entries.now; names = self.now.names.now })) }
    {
        (0..self.size()).all(|i| self.entry_good(i))
    }

    // Whether the chain fits.
    pub fn good(&self) -> bool
        ensures { result ≡ chain_good (record { entries = self.now.entries.now; names = self.now.names.now }) }
    {
        (self.entries.len() % 2 == 0)
            & self.entries_good()
            & (self.start(self.size()) == self.names.len())
    }
}
