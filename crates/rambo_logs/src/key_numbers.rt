//! Numbers of keys.
ghost use Rattle.std.specs.Prelude.{◌≡◌, ◌<◌, [], length, slice_index_or, IfOk, IfErr};
ghost use Rattle.rambo_logs.specs.Stored.{AreDistinct};
ghost use Rattle.rambo_logs.specs.Numbers.{Extends};

use rambo_names::{Bytes, Refusal};
use std::alloc::Global;
use std::collections::HashMap;
use std::marker::Model;

// Keys, numbered from 0 on as they came. Seen as the list of them.
#[derive(Drop)]
pub(crate) struct KeyNumbers {
    numbers: HashMap<Bytes, usize>,
}

impl Model for KeyNumbers {
    ghost use Rattle.std.specs.Prelude.{List, ℕ};
    ghost use Rattle.rambo_logs.specs.Numbers.{by_number, AreNumbers};

    ghost Value = { List (List ℕ) };

    ghost view = { λ k. by_number k.numbers.entries };

    ghost invariant = { λ k. AreNumbers k.numbers.entries };
}

impl KeyNumbers {
    pub(crate) fn new(alloc: Global) -> Self
        ensures { result ≡ [] }
    {
        KeyNumbers {
            numbers: HashMap::new(alloc),
        }
    }

    // The number of a key, which gets the next one if it has none yet.
    //
    // `OutOfMemory` where there is no room for it.
    pub(crate) fn number_of(&mut self, key: &Bytes) -> Result<usize, Refusal>
        ensures known { IfOk result (λ n. n < length self.new) }
        ensures number { IfOk result (λ n. slice_index_or self.new n [] ≡ key.now) }
        ensures grows { Extends self.old self.new }
        ensures distinct { AreDistinct self.new }
        ensures refused { IfErr result (λ r. r ≡ Refusal.OutOfMemory) }
    {
        if let Some(number) = self.numbers.get(key) {
            return Ok(*number);
        }
        let number = self.numbers.len();
        self.numbers.insert(key.clone()?, number)?;
        Ok(number)
    }
}
