//! What keys hold.
ghost use Rattle.std.specs.Prelude.{◌≡◌, ℕ, List, true, Some, if◌then◌else◌, None, IfOk, IfErr, OnOk};
ghost use Rattle.std.specs.Option.{option_copied};
ghost use Rattle.std.specs.Str.{bytes_eq};
ghost use Rattle.rambo_history.specs.Calls.{key_of};
ghost use Rattle.rambo_history.specs.Proper.{after_op};
ghost use Rattle.rambo_atomic.specs.Held.{held_in, held_of};
ghost use Rattle.rambo_atomic.specs.Scopes.{within};
ghost use Rattle.rambo_atomic.specs.Tests.{is_told};

use crate::rules::tells;
use crate::scope::Scope;
use rambo_history::{Answer, Op};
use rambo_names::{Bytes, Refusal};
use std::alloc::Global;
use std::collections::HashMap;

/// What keys hold after some calls of those within.
#[derive(Drop)]
pub(crate) struct Held<'a> {
    /// What the key holds, where the calls are of one key.
    pub one: Option<&'a Bytes>,
    /// What each key holds, where they are of all keys.
    pub each: HashMap<&'a [u8], &'a Bytes>,
}

impl<'a> Held<'a> {
    // Nothing. It allocates nothing.
    pub(crate) fn new(alloc: Global) -> Held<'a>
        ensures { (s : Scope) (q : List ℕ) → held_of s result.one result.each.entries q ≡ None }
    {
        Held {
            one: None,
            each: HashMap::new(alloc),
        }
    }

    // Takes one call more. Returns whether it was answered what its key holds, if it is a get.
    pub(crate) fn take(
        &mut self,
        scope: Scope,
        op: &'a Op,
        answer: Option<&Answer>,
    ) -> Result<bool, Refusal>
        requires { within scope op.now ≡ true }
        ensures told { IfOk result (λ t. t ≡ is_told (held_of scope.entry self.old.one self.old.each.entries) (Some op.now) (option_copied answer.entry)) }
        ensures held { OnOk result ((q : List ℕ) → held_of scope.entry self.new.one self.new.each.entries q ≡ after_op q (Some op.now) (held_of scope.entry self.old.one self.old.each.entries q)) }
        ensures refused { IfErr result (λ r. r ≡ Refusal.OutOfMemory) }
    {
        match scope {
            Scope::Key(_) => Ok(take_of_one(&mut self.one, op, answer)),
            Scope::AllKeys => take_of_all(&mut self.each, op, answer),
        }
    }
}

// The same where all calls are of one key.
fn take_of_one<'a>(held: &mut Option<&'a Bytes>, op: &'a Op, answer: Option<&Answer>) -> bool
    ensures told { result ≡ is_told (λ _. option_copied held.old) (Some op.now) (option_copied answer.entry) }
    ensures held { option_copied held.new ≡ after_op (key_of op.now) (Some op.now) (option_copied held.old) }
{
    match op {
        Op::Get(_) => tells(*held, answer),
        Op::Set(_, value) => {
            *held = Some(value);
            true
        }
    }
}

// The same where they are of all keys.
#[inline(never)]
fn take_of_all<'a>(
    held: &mut HashMap<&'a [u8], &'a Bytes>,
    op: &'a Op,
    answer: Option<&Answer>,
) -> Result<bool, Refusal>
    ensures told { IfOk result (λ t. t ≡ is_told (held_in held.old.entries) (Some op.now) (option_copied answer.entry)) }
    ensures held { OnOk result ((q : List ℕ) → held_in held.new.entries q ≡ after_op q (Some op.now) (held_in held.old.entries q)) }
    ensures refused { IfErr result (λ r. r ≡ Refusal.OutOfMemory) }
{
    match op {
        Op::Get(key) => Ok(tells(value_in(held, key.as_slice()), answer)),
        Op::Set(key, value) => {
            put(held, key.as_slice(), value)?;
            Ok(true)
        }
    }
}

// What is put at a key.
fn value_in<'a>(held: &HashMap<&'a [u8], &'a Bytes>, key: &[u8]) -> Option<&'a Bytes>
    ensures { option_copied result ≡ held_in held.now.entries key.now }
{
    held.get(&key).copied()
}

// Puts a value at a key.
fn put<'a>(
    held: &mut HashMap<&'a [u8], &'a Bytes>,
    key: &'a [u8],
    value: &'a Bytes,
) -> Result<(), Refusal>
    ensures held { OnOk result ((q : List ℕ) → held_in held.new.entries q ≡ (if bytes_eq key.now q then Some value.now else held_in held.old.entries q)) }
    ensures refused { IfErr result (λ r. r ≡ Refusal.OutOfMemory) }
{
    held.insert(key, value)?;
    Ok(())
}
