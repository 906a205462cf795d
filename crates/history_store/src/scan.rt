use prima_base::{Period, Steps};
use std::marker::Model;
use std::sync::ledger::Ledger;

/// A key: the id of a row, and the period in which the table has it.
#[derive(Drop)]
pub struct KeyEntry {
    pub id: u64,
    pub period: Period,
}

/// The keys that are left, by id.
#[derive(Drop)]
pub struct KeyScan<'a> {
    keys: &'a [Period],
    at: usize,
}

impl<'a> Model for KeyScan<'a> {
    ghost use Rattle.std.specs.Prelude.{List, length, ◌≤◌, drop};
    ghost use Rattle.history_store.specs.declared.scan.KeyEntry.{KeyEntry as OneKey};
    ghost use Rattle.history_store.specs.Scans.{keys_from};

    ghost Value = { List OneKey };

    ghost view = { λ s. keys_from s.at (drop s.at s.keys.now) };

    ghost invariant = { λ s. s.at ≤ length s.keys.now };
}

impl<'a> KeyScan<'a> {
    ghost use Rattle.std.specs.Prelude.{◌≡◌, ◌+◌, ◌++◌, [], ◌∷◌, length, IfNone, option_to_list};
    ghost use Rattle.history_store.specs.Scans.{keys_from};

    /// A scan of these keys from the first on.
    pub(crate) fn over(keys: &'a [Period]) -> KeyScan<'a>
        ensures { result ≡ keys_from 0 keys.now }
    {
        KeyScan { keys, at: 0 }
    }

    /// How many keys are left. It takes no memory.
    pub fn left(&self) -> usize
        ensures { result ≡ length self.now }
    {
        self.keys.len() - self.at
    }

    /// The next key. Each one that is handed out is one step. It takes no memory.
    pub fn next_key<L: Ledger>(&mut self, steps: &mut Steps<L>) -> Option<KeyEntry>
        ensures entries { self.old ≡ option_to_list result ++ self.new }
        ensures all { IfNone result (self.old ≡ []) }
        ensures cost { steps.new ≡ steps.old + length (option_to_list result) }
    {
        if self.at == self.keys.len() {
            return None;
        }
        steps.tick();
        let id = self.at;
        self.at += 1;
        Some(KeyEntry {
            id: id as u64,
            period: self.keys[id],
        })
    }
}
