//! Lines of a text, and words of a line.
ghost use Rattle.std.specs.Prelude.{◌≡◌, ◌≢◌, ℕ, List, [], ◌∷◌, length, IfSome, IfNone};
ghost use Rattle.std.specs.Option.{option_copied};
ghost use Rattle.memchr.specs.Find.{IsFirstByte, is_byte};
ghost use Rattle.rambo_text.specs.Words.{IsFirstLine, IsFirstWord, AreMore};

use memchr::memchr;

// How many bytes are looked at one by one. Most words are no longer, and these take less time than a search is begun in.
const NEAR: usize = 16;

/// The first line of a text, and the text after its line feed.
///
/// The last line may lack its line feed.
pub fn next_line(text: &[u8]) -> (&[u8], &[u8])
    ensures { IsFirstLine text.now result.0.now result.1.now }
{
    match memchr(b'\n', text) {
        Some(place) => (&text[..place], &text[place + 1..]),
        None => (text, &[]),
    }
}

/// The first word of a line, and what follows the space after it.
///
/// None where the word is the last.
pub fn next_word(line: &[u8]) -> (&[u8], Option<&[u8]>)
    ensures { IsFirstWord line.now result.0.now (option_copied result.1) }
{
    match first_space(line) {
        Some(place) => (&line[..place], Some(&line[place + 1..])),
        None => (line, None),
    }
}

// Where the first space of a line stands.
fn first_space(line: &[u8]) -> Option<usize>
    ensures { IsFirstByte (is_byte 32) line.now result }
{
    let near = line.len().min(NEAR);
    for place in 0..near {
        if line[place] == b' ' {
            return Some(place);
        }
    }
    if near < NEAR {
        return None;
    }
    let behind = memchr(b' ', &line[NEAR..])?;
    Some(NEAR + behind)
}

/// The word that follows the first, where it is the only one that does.
pub fn one_word(more: Option<&[u8]>) -> Option<&[u8]>
    ensures found { IfSome result (λ word. AreMore (option_copied more.entry) (word.now ∷ [])) }
    ensures none { IfNone result ((words : List (List ℕ)) → AreMore (option_copied more.entry) words → length words ≢ 1) }
{
    match next_word(more?) {
        (word, None) => Some(word),
        (_, Some(_)) => None,
    }
}

/// The words that follow the first, where they are two.
pub fn two_words(more: Option<&[u8]>) -> Option<(&[u8], &[u8])>
    ensures found { IfSome result (λ words. AreMore (option_copied more.entry) (words.0.now ∷ words.1.now ∷ [])) }
    ensures none { IfNone result ((words : List (List ℕ)) → AreMore (option_copied more.entry) words → length words ≢ 2) }
{
    let (first, more) = next_word(more?);
    let second = one_word(more)?;
    Some((first, second))
}

/// The words that follow the first, where they are three.
pub fn three_words(more: Option<&[u8]>) -> Option<(&[u8], &[u8], &[u8])>
    ensures found { IfSome result (λ words. AreMore (option_copied more.entry) (words.0.now ∷ words.1.now ∷ words.2.now ∷ [])) }
    ensures none { IfNone result ((words : List (List ℕ)) → AreMore (option_copied more.entry) words → length words ≢ 3) }
{
    let (first, more) = next_word(more?);
    let (second, third) = two_words(more)?;
    Some((first, second, third))
}
