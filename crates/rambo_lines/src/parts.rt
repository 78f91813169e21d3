//! The words after the first of a line, each in its form.
ghost use Rattle.std.specs.Prelude.{◌≡◌, ◌≢◌, ◌⊎◌, ℕ, List, [], ◌∷◌, ◌<◌, ◌^◌, length, decimal, IfOk, IfErr};
ghost use Rattle.std.specs.Option.{option_copied};
ghost use Rattle.rambo_names.specs.Names.{IsName, AreNames};
ghost use Rattle.rambo_names.specs.Signs.{set_text, conf_text, IsConf};
ghost use Rattle.rambo_text.specs.Forms as form;
ghost use Rattle.rambo_text.specs.Signs.{call_text, IsCall};
ghost use Rattle.rambo_text.specs.Words.{AreMore};
ghost use Rattle.rambo_lines.specs.Parts.{IsUnspelt, TellParts, TellUnfit, TellFault};
ghost use Rattle.rambo_lines.specs.StepParts as part;

use rambo_history::CallId;
use rambo_names::{Bytes, Members, Name, Weighted, read_conf, read_num, read_set};
use rambo_text::{Fault, one_word, read_call, read_hex, read_name, three_words, two_words};
use std::alloc::Global;

/// The name that the only word after the first spells; else the first fault of the words.
pub fn named(more: Option<&[u8]>) -> Result<Name, Fault>
    ensures found { IfOk result (λ name. TellParts (part.Name name ∷ []) (option_copied more.entry)) }
    ensures fault { IfErr result (λ f. TellUnfit (form.Name ∷ []) (option_copied more.entry) f) }
{
    name_of(one(more)?)
}

/// The call that the only word after the first spells; else the first fault of the words.
pub fn called(more: Option<&[u8]>) -> Result<CallId, Fault>
    ensures found { IfOk result (λ id. TellParts (part.Call id ∷ []) (option_copied more.entry)) }
    ensures fault { IfErr result (λ f. TellUnfit (form.Call ∷ []) (option_copied more.entry) f) }
{
    call_of(one(more)?)
}

/// The number that the only word after the first spells; else the first fault of the words.
pub fn numbered(more: Option<&[u8]>) -> Result<u64, Fault>
    ensures found { IfOk result (λ n. TellParts (part.Number n ∷ []) (option_copied more.entry)) }
    ensures fault { IfErr result (λ f. TellUnfit (form.Num ∷ []) (option_copied more.entry) f) }
{
    number_of(one(more)?)
}

/// The names that the two words after the first spell; else the first fault of the words.
pub fn two_names(more: Option<&[u8]>) -> Result<(Name, Name), Fault>
    ensures found { IfOk result (λ names. TellParts (part.Name names.0 ∷ part.Name names.1 ∷ []) (option_copied more.entry)) }
    ensures fault { IfErr result (λ f. TellUnfit (form.Name ∷ form.Name ∷ []) (option_copied more.entry) f) }
{
    let (from, to) = two(more)?;
    Ok((name_of(from)?, name_of(to)?))
}

/// The name and the set of names that the two words after the first spell; else the first fault of the words.
pub fn named_set(more: Option<&[u8]>) -> Result<(Name, Members), Fault>
    ensures found { IfOk result (λ told. TellParts (part.Name told.0 ∷ part.Names told.1 ∷ []) (option_copied more.entry)) }
    ensures fault { IfErr result (λ f. TellUnfit (form.Name ∷ form.Set ∷ []) (option_copied more.entry) f) }
{
    let (name, names) = two(more)?;
    Ok((name_of(name)?, set_of(names)?))
}

/// The name and the configuration that the two words after the first spell; else the first fault of the words.
pub fn named_conf(more: Option<&[u8]>) -> Result<(Name, Weighted), Fault>
    ensures found { IfOk result (λ told. TellParts (part.Name told.0 ∷ part.Conf told.1 ∷ []) (option_copied more.entry)) }
    ensures fault { IfErr result (λ f. TellUnfit (form.Name ∷ form.Conf ∷ []) (option_copied more.entry) f) }
{
    let (name, conf) = two(more)?;
    Ok((name_of(name)?, conf_of(conf)?))
}

/// The name and the bytes that the two words after the first spell.
///
/// `OutOfMemory` where there is no room for the bytes, and no fault comes before these; else the first fault of the words.
pub fn named_key(alloc: Global, more: Option<&[u8]>) -> Result<(Name, Bytes), Fault>
    ensures found { IfOk result (λ told. TellParts (part.Name told.0 ∷ part.Bytes told.1 ∷ []) (option_copied more.entry)) }
    ensures fault { IfErr result (λ f. TellFault (form.Name ∷ form.Hex ∷ []) (option_copied more.entry) f) }
{
    let (name, key) = two(more)?;
    let name = name_of(name)?;
    let key = read_hex(alloc, key)?;
    Ok((name, key))
}

/// The name, and the bytes of a key and of a value, that the three words after the first spell.
///
/// `OutOfMemory` where there is no room for bytes, and no fault comes before these; else the first fault of the words.
pub fn named_key_value(alloc: Global, more: Option<&[u8]>) -> Result<(Name, Bytes, Bytes), Fault>
    ensures found { IfOk result (λ told. TellParts (part.Name told.0 ∷ part.Bytes told.1 ∷ part.Bytes told.2 ∷ []) (option_copied more.entry)) }
    ensures fault { IfErr result (λ f. TellFault (form.Name ∷ form.Hex ∷ form.Hex ∷ []) (option_copied more.entry) f) }
{
    let (name, key, value) = three(more)?;
    let name = name_of(name)?;
    let key = read_hex(alloc, key)?;
    let value = read_hex(alloc, value)?;
    Ok((name, key, value))
}

/// The word after the first, where it is the only one; else `WrongCount`.
pub fn one(more: Option<&[u8]>) -> Result<&[u8], Fault>
    ensures found { IfOk result (λ word. AreMore (option_copied more.entry) (word.now ∷ [])) }
    ensures fault { IfErr result (λ f. (f ≡ Fault.WrongCount)
        × ((words : List (List ℕ)) → AreMore (option_copied more.entry) words → length words ≢ 1)) }
{
    one_word(more).ok_or(Fault::WrongCount)
}

/// The words after the first, where they are two; else `WrongCount`.
pub fn two(more: Option<&[u8]>) -> Result<(&[u8], &[u8]), Fault>
    ensures found { IfOk result (λ words. AreMore (option_copied more.entry) (words.0.now ∷ words.1.now ∷ [])) }
    ensures fault { IfErr result (λ f. (f ≡ Fault.WrongCount)
        × ((words : List (List ℕ)) → AreMore (option_copied more.entry) words → length words ≢ 2)) }
{
    two_words(more).ok_or(Fault::WrongCount)
}

/// The words after the first, where they are three; else `WrongCount`.
pub fn three(more: Option<&[u8]>) -> Result<(&[u8], &[u8], &[u8]), Fault>
    ensures found { IfOk result (λ words. AreMore (option_copied more.entry) (words.0.now ∷ words.1.now ∷ words.2.now ∷ [])) }
    ensures fault { IfErr result (λ f. (f ≡ Fault.WrongCount)
        × ((words : List (List ℕ)) → AreMore (option_copied more.entry) words → length words ≢ 3)) }
{
    three_words(more).ok_or(Fault::WrongCount)
}

/// The number that a word spells; else `BadNumber`.
pub fn number_of(word: &[u8]) -> Result<u64, Fault>
    ensures found { IfOk result (λ n. word.now ≡ decimal n) }
    ensures fault { IfErr result (λ f. IsUnspelt form.Num word.now f) }
{
    read_num(word).ok_or(Fault::BadNumber)
}

/// The name that a word spells; else `BadNumber`.
pub fn name_of(word: &[u8]) -> Result<Name, Fault>
    ensures found { IfOk result (λ n. IsName n × (word.now ≡ decimal n)) }
    ensures fault { IfErr result (λ f. IsUnspelt form.Name word.now f) }
{
    read_name(word).ok_or(Fault::BadNumber)
}

/// The set of names that a word spells; else `BadNumber`.
pub fn set_of(word: &[u8]) -> Result<Members, Fault>
    ensures found { IfOk result (λ s. AreNames s × (word.now ≡ set_text s)) }
    ensures fault { IfErr result (λ f. IsUnspelt form.Set word.now f) }
{
    read_set(word).ok_or(Fault::BadNumber)
}

/// The configuration that a word spells; else `BadNumber`.
pub fn conf_of(word: &[u8]) -> Result<Weighted, Fault>
    ensures found { IfOk result (λ c. IsConf c × (word.now ≡ conf_text c)) }
    ensures fault { IfErr result (λ f. IsUnspelt form.Conf word.now f) }
{
    read_conf(word).ok_or(Fault::BadNumber)
}

/// The call that a word spells; else `BadNumber`.
pub fn call_of(word: &[u8]) -> Result<CallId, Fault>
    ensures found { IfOk result (λ c. IsCall c × (word.now ≡ call_text c)) }
    ensures fault { IfErr result (λ f. IsUnspelt form.Call word.now f) }
{
    read_call(word).ok_or(Fault::BadNumber)
}
