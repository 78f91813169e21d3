//! The places of the calls of one name.
ghost use Rattle.std.specs.Prelude.{◌≡◌, []};
ghost use Rattle.std.specs.Bool.{MatchBool};
ghost use Rattle.std.specs.Option.{option_copied};
ghost use Rattle.rambo_history.specs.Places.{spot_in, IsListed, IsAnswered};

use crate::spot::Spot;
use std::alloc::{AllocError, Global};
use std::marker::Model;

/// The places of the calls of one name and of their answers, for the calls that came with the numbers 1, 2, 3 and so
/// on.
#[derive(Drop)]
pub(crate) struct CallList {
    spots: Vec<Spot>,
}

impl Model for CallList {
    ghost use Rattle.std.specs.Prelude.{List};
    ghost use Rattle.rambo_history.specs.declared.spot.Spot.{Spot};

    ghost Value = { List Spot };

    ghost view = { λ l. l.spots.items };
}

impl CallList {
    // Of no call.
    pub(crate) fn new(alloc: Global) -> CallList
        ensures { result ≡ [] }
    {
        CallList {
            spots: Vec::new(alloc),
        }
    }

    // The places of the call of a number.
    pub(crate) fn get(&self, number: u64) -> Option<&Spot>
        ensures { option_copied result ≡ spot_in self.now number }
    {
        if number == 0 {
            return None;
        }
        self.spots.get(number as usize - 1)
    }

    // Makes room for one more call.
    pub(crate) fn prepare(&mut self) -> Result<(), AllocError>
        ensures { self.new ≡ self.old }
    {
        self.spots.reserve(1)
    }

    // Puts a call at the end, if its number is the next one and there is room. Returns whether it did.
    pub(crate) fn push(&mut self, number: u64, spot: Spot) -> bool
        ensures { MatchBool result (IsListed number spot self.old self.new) (self.new ≡ self.old) }
    {
        let len = self.spots.len();
        if number == 0 || number as usize - 1 != len || len == self.spots.capacity() {
            return false;
        }
        self.spots.push_reserved(spot);
        true
    }

    // Puts the place of an answer to its call, if the call of the number is here. Returns whether it is.
    pub(crate) fn answer(&mut self, number: u64, place: usize) -> bool
        ensures { IsAnswered number place self.old self.new result }
    {
        if number == 0 {
            return false;
        }
        match self.spots.get_mut(number as usize - 1) {
            Some(spot) => {
                spot.answered = place;
                true
            }
            None => false,
        }
    }
}
