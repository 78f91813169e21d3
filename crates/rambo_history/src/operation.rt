//! Operations of a register, and their answers.
ghost use Rattle.std.specs.Prelude.{◌≡◌, IfOk, IfErr};
ghost use Rattle.rambo_history.specs.Calls.{key_of, is_get, fits};

use rambo_names::{Bytes, Refusal};

/// What a client asks of the register of a key.
#[derive(Drop, Debug)]
pub enum Op {
    /// The value of this key.
    Get(Bytes),
    /// That this key have this value.
    Set(Bytes, Bytes),
}

impl Op {
    /// The key.
    pub fn key(&self) -> &Bytes
        ensures { result.now ≡ key_of self.now }
    {
        match self {
            Op::Get(key) => key,
            Op::Set(key, _) => key,
        }
    }

    /// Whether a value is asked for.
    pub fn is_get(&self) -> bool
        ensures { result ≡ is_get self.now }
    {
        matches!(self, Op::Get(_))
    }

    /// The same operation, which shares its bytes.
    ///
    /// `OutOfMemory` where a reference count is at its limit.
    #[inline(always)]
    pub fn clone(&self) -> Result<Op, Refusal>
        ensures same { IfOk result (λ op. op ≡ self.now) }
        ensures refused { IfErr result (λ r. r ≡ Refusal.OutOfMemory) }
    {
        match self {
            Op::Get(key) => Ok(Op::Get(key.clone()?)),
            Op::Set(key, value) => Ok(Op::Set(key.clone()?, value.clone()?)),
        }
    }
}

/// What a client is answered.
#[derive(Drop, Debug)]
pub enum Answer {
    /// A set is done.
    Ok,
    /// The key of a get has no value.
    Nil,
    /// The key of a get has this value.
    Value(Bytes),
}

impl Answer {
    /// Whether this is an answer of an operation's kind: `Ok` of a set, nil or a value of a get.
    pub fn fits(&self, op: &Op) -> bool
        ensures { result ≡ fits op.now self.now }
    {
        matches!(
            (op, self),
            (Op::Get(_), Answer::Nil | Answer::Value(_)) | (Op::Set(_, _), Answer::Ok)
        )
    }

    /// The same answer, which shares its bytes.
    ///
    /// `OutOfMemory` where a reference count is at its limit.
    pub fn clone(&self) -> Result<Answer, Refusal>
        ensures same { IfOk result (λ answer. answer ≡ self.now) }
        ensures refused { IfErr result (λ r. r ≡ Refusal.OutOfMemory) }
    {
        match self {
            Answer::Ok => Ok(Answer::Ok),
            Answer::Nil => Ok(Answer::Nil),
            Answer::Value(value) => Ok(Answer::Value(value.clone()?)),
        }
    }
}
