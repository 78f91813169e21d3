//! What is true of every outcome text.
ghost use Rattle.rambo_check.specs.Laws.{OneReading, OneEvidence, NoToldIsFaulty, OneFault};

/// After its head no text has the lines of two outcomes.
pub fn one_reading()
    ensures { OneReading }
{}

/// No text gives two evidences, nor one in two versions: it gives one history, one order for each key, and one for all
/// keys.
pub fn one_evidence()
    ensures { OneEvidence }
{}

/// A text that gives an evidence has no fault, except that memory may run out while it is read.
pub fn no_told_is_faulty()
    ensures { NoToldIsFaulty }
{}

/// A text that gives none has one first fault, apart from memory that may run out.
pub fn one_fault()
    ensures { OneFault }
{}
