//! Reading the words after a command of a server.
ghost use Rattle.std.specs.Prelude.{◌≡◌, IfOk, IfErr};
ghost use Rattle.rambo_names.specs.Names.{IsName};
ghost use Rattle.rambo_text.specs.Forms.{IsSpelt};
ghost use Rattle.rambo_text.specs.Forms as form;
ghost use Rattle.rambo_commands.specs.Administration.{IsNumber, IsOfConf, IsSet};

use crate::mistake::Mistake;
use rambo_names::{Bytes, Members, Name, Refusal, Weighted, read_conf, read_num, read_set};

// The number that a word spells.
//
// `BadArgument` where it spells none.
pub(crate) fn number_in(word: &Bytes) -> Result<u64, Mistake>
    ensures number { IfOk result (λ n. IsNumber word.now n) }
    ensures bad { IfErr result (λ m. (m ≡ Mistake.BadArgument) × ¬ (IsSpelt form.Num word.now)) }
{
    read_num(word.as_slice()).ok_or(Mistake::BadArgument)
}

// The set that a word spells.
//
// `BadArgument` where it spells none.
pub(crate) fn set_in(word: &Bytes) -> Result<Members, Mistake>
    ensures set { IfOk result (λ s. IsSet word.now s) }
    ensures bad { IfErr result (λ m. (m ≡ Mistake.BadArgument) × ¬ (IsSpelt form.Set word.now)) }
{
    read_set(word.as_slice()).ok_or(Mistake::BadArgument)
}

// The configuration that a word spells.
//
// `BadArgument` where it spells none.
pub(crate) fn conf_in(word: &Bytes) -> Result<Weighted, Mistake>
    ensures conf { IfOk result (λ c. IsOfConf word.now c) }
    ensures bad { IfErr result (λ m. (m ≡ Mistake.BadArgument) × ¬ (IsSpelt form.Conf word.now)) }
{
    read_conf(word.as_slice()).ok_or(Mistake::BadArgument)
}

// The name of this number.
//
// Refused with `NoSuchName` where it is no name.
pub(crate) fn named(number: u64) -> Result<Name, Mistake>
    ensures name { IfOk result (λ n. (n ≡ number) × IsName number) }
    ensures refused { IfErr result (λ m. (m ≡ Mistake.Refused Refusal.NoSuchName) × ¬ (IsName number)) }
{
    Name::new(number).map_err(Mistake::Refused)
}
