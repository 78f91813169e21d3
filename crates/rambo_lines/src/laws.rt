//! What is true of every text.
ghost use Rattle.rambo_lines.specs.Laws.{OneReading, WrittenReadsBack, NoScriptIsFaulty, OneFault};

/// No bytes are the text of two scripts, nor of one in two versions.
pub fn one_reading()
    ensures { OneReading }
{}

/// What is written of a script in a version is read as that script in that version, and as no other.
pub fn written_reads_back()
    ensures { WrittenReadsBack }
{}

/// The text of a script has no fault.
pub fn no_script_is_faulty()
    ensures { NoScriptIsFaulty }
{}

/// Bytes that are no script have one first fault.
pub fn one_fault()
    ensures { OneFault }
{}
