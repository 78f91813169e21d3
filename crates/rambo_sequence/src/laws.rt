//! What the given sequences are, and the one order of them.
ghost use Rattle.rambo_sequence.specs.Laws.{GivenIsSequence, OneSequence, GivenAreSequences, OneList};
ghost use Rattle.rambo_sequence.specs.StoreOrders.{GivenIsOrder, OneOrder, OrderIsProper};

/// The given sequence of a key has exactly the calls of the key's marks, by their tags. Under one tag the sets come
/// before the gets, and these go by the places of their calls.
pub fn given_is_sequence()
    ensures { GivenIsSequence }
{}

/// No other list does, where no two of the key's marks tie. That is, under one tag there is at most one set, and no two
/// gets whose calls are at one place.
pub fn one_sequence()
    ensures { OneSequence }
{}

/// The given sequences are those of the keys that are marked, each once, in byte order.
pub fn given_are_sequences()
    ensures { GivenAreSequences }
{}

/// No other list is.
pub fn one_list()
    ensures { OneList }
{}

/// The given order of all keys is one. Next is always the first call left of some key: of the key whose calls left
/// include the one that was answered first. Once no call left has an answer, the keys follow one after another in byte
/// order.
pub fn given_is_order()
    ensures { GivenIsOrder }
{}

/// No other list is.
pub fn one_store_order()
    ensures { OneOrder }
{}

/// Where the sequence of each key is proper, one order of all of them is proper for all keys. Herlihy and Wing
/// ("Linearizability", TOPLAS 1990) prove that such an order exists.
pub fn order_is_proper()
    ensures { OrderIsProper }
{}
