// Is a table sound, the pending candidates that this looks at, and the verdict. For the crates above.
#![tactic(auto)]

ghost use Rattle.std.specs.Prelude.{◌≡◌, ℕ, ◌*◌, ◌≤◌, length};
ghost use Rattle.model.specs.Lists.{every};
ghost use Rattle.model.specs.Table.{record_size, member_of, members_of, members_in, table_of};
ghost use Rattle.model.specs.Ring.{candidate_inside, principals, sound, verdict};
ghost use Rattle.table.specs.FormedWords.{FormedWords};
ghost use Rattle.best_successors.specs.Places.{BestPlaces};
ghost use Rattle.answers.specs.Verdict.{number_of};

use answers::report::Verdict;

// Lies the candidate of the record that the part holds, if one is pending, between its member and the first entry?
fn candidate_inside(s: &[u32]) -> bool
    requires { record_size 1 ≤ length s.now }
    ensures { (r : ℕ) → 1 ≤ r → result ≡ candidate_inside (member_of r s.now) }
{
    if s[words::PENDING] == 1 {
        return ident::between(s[words::ID], s[words::CANDIDATE], s[words::LIST]);
    }
    true
}

// Lies each pending candidate of the n records at the front so? By count: `chunks_exact` counts the words left too, and settle would take more stack.
pub fn candidates_inside(s: &[u32], r: usize, n: usize) -> bool
    requires { (1 ≤ r) × (r ≤ 8) × (n * record_size r ≤ length s.now) }
    ensures { result ≡ every candidate_inside (members_of r n s.now) }
{
    let w = words::record_size(r);
    let mut left = s;
    for _ in 0..n {
        let (record, others) = left.split_at(w);
        if !candidate_inside(record) {
            return false;
        }
        left = others;
    }
    true
}

// Is a table with so many principals sound?
pub fn is_sound(t: &[u32], best: &[u16; 256], count: usize) -> bool
    requires formed_words { FormedWords t.now }
    requires best_places { BestPlaces t.now best.now }
    requires count_value { count ≡ principals (members_in t.now) }
    ensures { result ≡ sound (table_of t.now) }
{
    let r = t[words::R] as usize;
    let n = t[words::COUNT] as usize;
    if best_successors::all_live(t, best) {
        if r < count {
            let s = words::records_of(t);
            return candidates_inside(s, r, n);
        }
    }
    false
}

// The verdict on a table with so many principals.
pub fn verdict_of(t: &[u32], best: &[u16; 256], count: usize) -> Verdict
    requires formed_words { FormedWords t.now }
    requires best_places { BestPlaces t.now best.now }
    requires count_value { count ≡ principals (members_in t.now) }
    ensures { number_of result ≡ verdict (table_of t.now) }
{
    if !is_sound(t, best, count) {
        return Verdict::NotSound;
    }
    if ideal::is_ideal(t) {
        return Verdict::Ideal;
    }
    Verdict::Sound
}
