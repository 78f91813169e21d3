//! What was reported of rows so far.
ghost use Rattle.std.specs.Prelude.{◌≡◌, ◌+◌, ◌<◌, ◌++◌, ◌^◌, ◌∷◌, ◌&&◌, [], cond, nat_eq, nat_lt, codes, decimal, OnOk};
ghost use Rattle.rambo_rows.specs.Reports.{total};

use rambo_text::write_num;
use std::alloc::{AllocError, Global};

/// What was reported of rows so far, how many there were, and how many were wrong.
#[derive(Drop)]
pub struct Tally {
    pub report: Vec<u8>,
    pub rows: u64,
    pub wrong: u64,
}

impl Tally {
    /// No row yet.
    pub fn new(alloc: Global) -> Tally
        ensures report { result.report.items ≡ [] }
        ensures counts { (result.rows ≡ 0) × (result.wrong ≡ 0) }
    {
        Tally {
            report: Vec::new(alloc),
            rows: 0,
            wrong: 0,
        }
    }

    /// Counts a row, and reports its name if it is wrong.
    pub fn add(&mut self, name: &[u8], right: bool) -> Result<(), AllocError>
        requires rows { self.old.rows < 2 ^ 63 }
        requires wrong { self.old.wrong < 2 ^ 63 }
        ensures rows { OnOk result (self.new.rows ≡ self.old.rows + 1) }
        ensures wrong { OnOk result (self.new.wrong ≡ self.old.wrong + cond right 0 1) }
        ensures report { OnOk result (self.new.report.items ≡ self.old.report.items ++ cond right [] (codes "wrong: " ++ name.now ++ 10 ∷ [])) }
    {
        self.rows += 1;
        if !right {
            self.wrong += 1;
            self.report.extend_from_slice(b"wrong: ")?;
            self.report.extend_from_slice(name)?;
            self.report.push(b'\n')?;
        }
        Ok(())
    }

    /// Whether none was wrong, and there was one at all.
    pub fn is_green(&self) -> bool
        ensures { result ≡ (nat_eq self.now.wrong 0 && nat_lt 0 self.now.rows) }
    {
        self.wrong == 0 && self.rows > 0
    }

    /// Reports how many there were.
    pub fn tell_total(&mut self) -> Result<(), AllocError>
        ensures counts { (self.new.rows ≡ self.old.rows) × (self.new.wrong ≡ self.old.wrong) }
        ensures report { OnOk result (self.new.report.items ≡ self.old.report.items ++ total self.old.rows self.old.wrong) }
    {
        write_num(self.rows, &mut self.report)?;
        self.report.extend_from_slice(b" rows, ")?;
        write_num(self.wrong, &mut self.report)?;
        self.report.extend_from_slice(b" wrong\n")
    }
}
