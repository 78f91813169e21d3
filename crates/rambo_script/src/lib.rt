//! Scripts: how they are written, read and run.
//!
//! - `Script`, `read_script`, `step_text` and the laws of texts, which `rambo_lines` defines.
//! - `replay`, which `rambo_replay` defines: from a script to the text of what its run gives.
//! - `outcome_text` and `check_text`, which `rambo_outcome` defines: the text of what a run gave, and the verdicts on one.
#![tactic(auto)]

pub use rambo_lines::{
    LINE_LIMIT, Script, no_script_is_faulty, one_fault, one_reading, read_script, step_text,
    written_reads_back,
};
pub use rambo_outcome::{check_text, outcome_text};
pub use rambo_replay::replay;
pub use rambo_text::{Fault, ReplayFault, ScriptFault, Version};
