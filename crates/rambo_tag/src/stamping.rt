//! The laws of stamps.
ghost use Rattle.rambo_tag.specs.Stamps.{SinceIsEnough, AllSinceZero, MergesAreStamped, ShortIsAlike};

/// A replica that holds each copy with a stamp below a base gets from the copies since that base what it would get from
/// all. The copies since 0 are all copies. A merge stamps what it changes, and nothing else. A letter that lacks only
/// what is held anyway is merged and stamped as the whole one.
pub fn stamp_laws()
    ensures enough { SinceIsEnough }
    ensures all { AllSinceZero }
    ensures stamped { MergesAreStamped }
    ensures short { ShortIsAlike }
{}
