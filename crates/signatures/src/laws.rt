//! What follows of building, each law on the contract of a function that does nothing. The laws hold for every key type.
ghost use Rattle.signatures.specs.Laws.{Grows, Settles, StaysFrugal, StaysQuiet};

use dictionary::key::Key;

/// Building only adds keys, refused or not. How often a dictionary was asked says nothing of what is answered and named.
pub fn building_grows<E: Key>()
    ensures grows { Grows E.Key.order }
    ensures quiet { StaysQuiet E.Key.order }
{}

/// A building that ended well, done again over dictionaries that have grown since, or that take no key more, or with
/// other capacities, answers the same and names nothing. Over dictionaries that take no key more, any building names
/// nothing and asks no more than it would.
pub fn building_settles<E: Key>()
    ensures settles { Settles E.Key.order }
    ensures frugal { StaysFrugal E.Key.order }
{}
