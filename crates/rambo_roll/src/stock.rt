//! A roll with those of its steps that are still at hand.
ghost use Rattle.std.specs.Prelude.{◌≡◌, ◌+◌, ◌^◌, ◌<◌, [], ◌∷◌, ◌++◌, drop, length, true, false, OnOk};
ghost use mathlib.Core.List.{IsPrefix};
ghost use Rattle.rambo_roll.specs.Rolls.{Idle};

use crate::roll::{Front, Holder, Roll};
use crate::view::{Acts, Naming};
use std::alloc::{AllocError, Global};
use std::marker::Model;
use std::mem;

/// All steps, and the one right to add to them. Only those at hand take memory: the last ones, which weren't drawn yet.
///
/// Contracts see all steps, how many of them, the first, were drawn, and for how many more there is room.
pub struct Stock<J: Naming, E: Drop, M: Acts<E>> {
    roll: Roll<J, E, M>,
    // The last of all.
    kept: Vec<E>,
    // How many there are, including those that were drawn.
    count: usize,
}

// By hand, so that those who drop it needn't follow all that is in it.
impl<J: Naming, E: Drop, M: Acts<E>> Drop for Stock<J, E, M> {
    fn drop(self) {
        let Stock {
            roll: _roll,
            kept: _kept,
            count: _,
        } = self;
    }
}

impl<J: Naming, E: Drop, M: Acts<E>> Model for Stock<J, E, M> {
    ghost use Rattle.std.specs.Coded.{codes};
    ghost use Rattle.std.specs.Prelude.{◌-◌, length};
    ghost use Rattle.std.specs.Vec.{vec_capacity, vec_len};
    ghost use Rattle.rambo_roll.specs.Stocks.{StockView, IsStocked};

    ghost Value = { StockView E };

    ghost coded = { Prim.hlevel (codes, E.code) };

    ghost view = { λ s. record { all = s.roll.1; drawn = s.count - length s.kept.items; room = vec_capacity s.kept - vec_len s.kept } };

    ghost invariant = { λ s. IsStocked s.roll.1 s.kept.items s.count };
}

/// All steps that were drawn, as their drawer knows them.
#[derive(Drop)]
pub struct Drawn<J: Naming, E> {
    front: Front<J, E>,
    count: usize,
}

impl<J: Naming, E> Model for Drawn<J, E> {
    ghost use Rattle.std.specs.Prelude.{◌≡◌, List, length};

    ghost Value = { List E };

    ghost view = { λ d. d.front };

    ghost invariant = { λ d. d.count ≡ length d.front };
}

impl<J: Naming, E> Drawn<J, E> {
    /// How many they are.
    pub fn count(&self) -> usize
        ensures { result ≡ length self.now }
    {
        self.count
    }
}

impl<J: Naming, E: Drop, M: Acts<E>> Stock<J, E, M> {
    /// No step. It allocates nothing.
    pub fn new(alloc: Global, roll: Roll<J, E, M>) -> Stock<J, E, M>
        requires { roll.1 ≡ [] }
        ensures all { result.all ≡ [] }
        ensures drawn { result.drawn ≡ 0 }
    {
        Stock {
            roll,
            kept: Vec::new(alloc),
            count: 0,
        }
    }

    /// A drawer's knowledge before anything was drawn.
    pub fn drawing(&mut self) -> Drawn<J, E>
        ensures stock { self.new ≡ self.old }
        ensures drawn { result ≡ [] }
    {
        Drawn {
            front: self.roll.nothing(),
            count: 0,
        }
    }

    /// All steps so far, as a front.
    pub fn front(&mut self) -> Front<J, E>
        ensures stock { self.new ≡ self.old }
        ensures front { result ≡ self.old.all }
    {
        self.roll.front()
    }

    /// A front that has seen nothing.
    pub fn nothing(&mut self) -> Front<J, E>
        ensures stock { self.new ≡ self.old }
        ensures front { result ≡ [] }
    {
        self.roll.nothing()
    }

    /// A copy of a front.
    pub fn again(&self, front: &mut Front<J, E>) -> Front<J, E>
        ensures same { front.new ≡ front.old }
        ensures copy { result ≡ front.old }
    {
        self.roll.again(front)
    }

    /// A front begins the steps.
    pub fn begins(&mut self, front: &mut Front<J, E>)
        ensures stock { self.new ≡ self.old }
        ensures front { front.new ≡ front.old }
        ensures begins { IsPrefix front.old self.old.all }
    {
        self.roll.begins(front);
    }

    /// What a keeper has seen begins the steps, and none of the rest is of its name.
    pub fn agree(&mut self, keeper: &mut Holder<J, E>)
        ensures stock { self.new ≡ self.old }
        ensures keeper { keeper.new ≡ keeper.old }
        ensures idle { Idle M.actor keeper.old.0 keeper.old.1 self.old.all }
    {
        self.roll.agree(keeper);
    }

    /// The keeper sees all steps.
    pub fn catch_up(&mut self, keeper: &mut Holder<J, E>)
        ensures stock { self.new ≡ self.old }
        ensures keeper { keeper.new ≡ (keeper.old.0, self.old.all) }
    {
        self.roll.catch_up(keeper);
    }

    /// Makes room for one more step.
    pub fn reserve(&mut self) -> Result<(), AllocError>
        ensures same { self.new ≡ record self.old { room = self.new.room } }
        ensures room { OnOk result (0 < self.new.room) }
    {
        self.kept.reserve(1)
    }

    /// The keeper's step is the last one. Room was made for it.
    pub fn add(&mut self, keeper: &mut Holder<J, E>, step: E)
        requires acts { M.actor self.old.all step ≡ keeper.old.0 }
        requires room { 0 < self.old.room }
        requires few { length self.old.all + 1 < 2 ^ 64 }
        ensures stock { self.new ≡ record self.old { all = self.old.all ++ step ∷ []; room = self.new.room } }
        ensures keeper { keeper.new ≡ (keeper.old.0, self.old.all ++ step ∷ []) }
    {
        self.roll.add(keeper, &step);
        self.kept.push_reserved(step);
        self.count += 1;
    }

    /// How many steps there are, including those that were drawn.
    pub fn len(&self) -> usize
        ensures { result ≡ length self.now.all }
    {
        self.count
    }

    /// How many are at hand.
    pub fn at_hand(&self) -> usize
        ensures { result + self.now.drawn ≡ length self.now.all }
    {
        self.kept.len()
    }

    /// Draws the steps at hand: they go to `into`, which is empty, and the drawer knows them. The list itself is unchanged.
    /// It takes constant time, and allocates nothing.
    ///
    /// False where another drawer has drawn since; then nothing is drawn.
    pub fn draw(&mut self, drawn: &mut Drawn<J, E>, into: &mut Vec<E>) -> bool
        requires { into.old.items ≡ [] }
        ensures all { self.new.all ≡ self.old.all }
        ensures given { result ≡ true → (drawn.old ++ into.new.items ≡ self.old.all) × (drawn.new ≡ self.old.all) × (self.new.drawn ≡ length self.old.all) }
        ensures same { result ≡ false → (self.new ≡ self.old) × (drawn.new ≡ drawn.old) × (into.new.items ≡ []) }
        ensures knows { length drawn.old ≡ self.old.drawn → result ≡ true }
        ensures begins { IsPrefix drawn.old self.old.all }
    {
        let Drawn { front, count } = drawn;
        self.roll.begins(front);
        if *count != self.count - self.kept.len() {
            return false;
        }
        *front = self.roll.front();
        *count = self.count;
        mem::swap(&mut self.kept, into);
        true
    }

    /// The steps at hand, by whoever ends the list.
    pub fn into_at_hand(self) -> Vec<E>
        ensures { result.items ≡ drop self.drawn self.all }
    {
        let Stock {
            roll: _roll,
            kept,
            count: _,
        } = self;
        kept
    }
}
