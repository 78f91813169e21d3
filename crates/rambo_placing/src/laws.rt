//! What is true of every order with gets in their places.
ghost use Rattle.rambo_placing.specs.Laws.{GetsStandBehind, OthersKeepTheirOrder};

/// Behind each set of the key in an order stand the gets of the key that were answered its value.
pub fn gets_stand_behind()
    ensures { GetsStandBehind }
{}

/// The entries of an order that aren't gets of the key keep their order, and so do the sets.
pub fn others_keep_their_order()
    ensures { OthersKeepTheirOrder }
{}
