//! Where a trace begins.
ghost use Rattle.std.specs.Prelude.{Bool, Option};
ghost use Rattle.rambo_scribe.specs.Traced.{Taken};

use std::marker::Brand;

/// What a writer had taken before a trace was written to it, and whether replies wait for what its medium keeps.
pub trait Starts {
    ghost before: { Taken };

    ghost syncs: { Bool };
}

impl Starts for Brand {
    ghost use Rattle.std.specs.Prelude.{None, false};

    ghost before = { record { bytes = None; failures = 0 } };

    ghost syncs = { false };
}
