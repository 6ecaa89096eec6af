// A part of a line: where it ends, and the word or the number that it is.
#![tactic(auto)]

ghost use Rattle.std.specs.Prelude.{◌≡◌, ◌≤◌, length, take};
ghost use Rattle.script.specs.Lines.{word_of};
ghost use Rattle.part.specs.Part.{reach, words_of_length, maybe_word, number_of};

use script::Word;

// The place of the first byte b, or the length where there is none.
pub fn until(s: &[u8], b: u8) -> usize
    ensures { (result ≡ reach b s.now) × (result ≤ length s.now) × (result ≡ length (take result s.now)) }
{
    s.iter().position(|x| *x == b).unwrap_or(s.len())
}

// The words with so many letters, in the order in which they are looked for.
fn words_of_length(letters: usize) -> &'static [Word]
    ensures { result.now ≡ words_of_length letters }
{
    match letters {
        3 => &[Word::New, Word::Out],
        4 => &[Word::Join, Word::Stab, Word::Rect, Word::Drop, Word::Find],
        5 => &[Word::Audit],
        _ => &[],
    }
}

// The word that a part is, looked for among those as long as it.
pub fn word(p: &[u8]) -> Option<Word>
    ensures { result ≡ maybe_word (word_of p.now) }
{
    words_of_length(p.len())
        .iter()
        .copied()
        .find(|w| p == w.text())
}

// The number that a part is: 1 to 10 digits, and at most 4294967295.
pub fn number_in(p: &[u8]) -> Option<u32>
    ensures { result ≡ number_of p.now }
{
    if p.is_empty() || 10 < p.len() {
        return None;
    }
    let mut v: u32 = 0;
    for b in p {
        if !b.is_ascii_digit() {
            return None;
        }
        v = v.checked_mul(10)?.checked_add(u32::from(*b - b'0'))?;
    }
    Some(v)
}
