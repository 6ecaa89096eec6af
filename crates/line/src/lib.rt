// Reading a line of a session: its word and its numbers.
#![tactic(auto)]

ghost use Rattle.std.specs.Prelude.{◌≡◌, [], ◌∷◌, ◌++◌, ◌≤◌, length, take};
ghost use Rattle.script.specs.Lines.{takes as takesOf, meaning};
ghost use Rattle.line.specs.Reading.{firsts, viewed, InLine, cut};

use script::Word;

// A number more, kept while there is room for it.
fn keep(xs: &mut [u32], n: usize, v: u32) -> usize
    requires { (n ≤ 258) × (length xs.old ≡ 258) }
    ensures { (result ≤ 258) × (take result xs.new ≡ firsts (take n xs.old ++ (v ∷ []))) }
{
    if n == xs.len() {
        return n;
    }
    xs[n] = v;
    n + 1
}

// Are n numbers those of the word?
fn takes(w: Word, n: usize) -> bool
    ensures { result ≡ takesOf w n }
{
    match w {
        Word::New => 1 <= n,
        Word::Join | Word::Rect | Word::Find => n == 2,
        Word::Stab | Word::Out | Word::Drop => n == 1,
        Word::Audit => n == 0,
    }
}

// What a line asks: a word with so many numbers kept, or nothing if it cannot be read.
// Its numbers, of which the first 258 are enough, are put into xs.
pub fn read(l: &[u8], xs: &mut [u32]) -> Option<(Word, usize)>
    requires { length xs.old ≡ 258 }
    ensures { (viewed result xs.new ≡ cut (meaning l.now)) × InLine result }
{
    let mut parts = l.split(|b| *b == b' ');
    let w = part::word(parts.next()?)?;
    let mut n = 0;
    for p in parts {
        let v = part::number_in(p)?;
        n = keep(xs, n, v);
    }
    if takes(w, n) { Some((w, n)) } else { None }
}
