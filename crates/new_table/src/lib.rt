// New: the table of rising identifiers.
#![tactic(auto)]

ghost use Rattle.std.specs.Prelude.{◌≡◌, true, ◌≤◌, length};
ghost use Rattle.model.specs.Lists.{rising, overlay};
ghost use Rattle.model.specs.Table.{size, words_of};
ghost use Rattle.model.specs.New.{new_table};
ghost use Rattle.model.specs.Refusals.{new_refusal};
ghost use Rattle.model.specs.Calls.{new_answer, new_words};
ghost use Rattle.answers.specs.Count.{answer_of};
ghost use Rattle.answers.specs.Judged.{Judges};

use answers::refusal::Refusal;

// May a new table be made of so many words? Or 11 or 10.
#[tactic(auto, using(std::proofs::lemmas::Bool::Decides::nat_tests, crate::proofs::Written::new_size), unfolding(model::specs::Refusals::new_refusal, model::specs::Refusals::no_new_table))]
fn judge(words: usize, r: u32, xs: &[u32]) -> Result<(), Refusal>
    ensures { Judges (new_refusal words r xs.now) tt result }
{
    let w = r as usize;
    let n = xs.len();
    if r < 1 || 8 < r || n <= w || 256 < n || !rising::is_rising(xs) {
        return Err(Refusal::NoNewTable);
    }
    if words < words::offset(w, n) {
        return Err(Refusal::TooShort);
    }
    Ok(())
}

// The words of the new table, written; the words after them stay. The entries past r are written over by the next records.
fn write_table(t: &mut [u32], r: usize, xs: &[u32])
    requires { (rising xs.now ≡ true) × (r ≤ 8) × (length xs.now ≤ 256) × (size (new_table r xs.now) ≤ length t.old) }
    ensures { t.new ≡ overlay (words_of (new_table r xs.now)) t.old }
{
    let n = xs.len();
    t[words::R] = r as u32;
    t[words::COUNT] = n as u32;
    t[words::STEPS] = 0;
    let ahead = n.saturating_sub(8);
    for i in 0..ahead {
        let at = words::offset(r, i);
        new_member::write_ahead(&mut t[at..], xs, i, r);
    }
    for i in ahead..n {
        let at = words::offset(r, i);
        new_member::write_round(&mut t[at..], xs, i, r);
    }
}

// The new table of r and rising identifiers: the member count, or 11 or 10 with the slice unchanged. The old words are never looked at.
pub fn new(t: &mut [u32], r: u32, xs: &[u32]) -> Result<u32, Refusal>
    ensures { (answer_of result ≡ new_answer t.old r xs.now) × (t.new ≡ new_words t.old r xs.now) }
{
    judge(t.len(), r, xs)?;
    write_table(t, r as usize, xs);
    Ok(xs.len() as u32)
}
