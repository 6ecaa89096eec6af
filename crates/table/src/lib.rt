// Members of a table in a slice: the test for well-formed tables, and where a member stands.
// For the crates above; behind `well_formed`, each function asks for a well-formed table.
#![tactic(auto)]

ghost use Rattle.std.specs.Prelude.{◌≡◌, true, false, ◌&&◌, ◌+◌, ◌*◌, ◌≤◌, ◌<◌, leb, ltb, eqb, length, get_or};
ghost use Rattle.model.specs.Table.{record_size, record_of, members_of, members_in, ids, well_formed};
ghost use Rattle.model.specs.Ring.{nobody};
ghost use Rattle.member.specs.View.{view};
ghost use Rattle.table.specs.FormedWords.{FormedWords};
ghost use Rattle.table.specs.Rank.{rank as rank_of};
ghost use Rattle.table.specs.Located.{located};
ghost use Rattle.table.specs.Tests.{right_pending, right_from};

use member::Member;

// Is the record that the part holds right, with an identifier of at least lo?
#[tactic(auto, using(std::proofs::lemmas::Bool::Decides::nat_tests), unfolding(crate::specs::Tests::right_pending))]
fn record_ok(s: &[u32], lo: usize) -> bool
    requires { 4 ≤ length s.now }
    ensures { result ≡ (leb lo (get_or s.now 0 0) && right_pending (get_or s.now 2 0) (get_or s.now 3 0)) }
{
    let pending = s[words::PENDING];
    let candidate = s[words::CANDIDATE];
    lo <= s[words::ID] as usize && (pending == 1 || pending == 0 && candidate == 0)
}

// Are the n records at the front right, by rising identifier? By count: `chunks_exact` counts the words left too, one instruction more a record.
fn records_ok(s: &[u32], r: usize, n: usize) -> bool
    requires { (r ≤ 8) × (n * record_size r ≤ length s.now) }
    ensures { result ≡ right_from 0 (members_of r n s.now) }
{
    let w = words::record_size(r);
    let mut left = s;
    let mut lo = 0;
    for _ in 0..n {
        let (part, others) = left.split_at(w);
        if !record_ok(part, lo) {
            return false;
        }
        lo = part[words::ID] as usize + 1;
        left = others;
    }
    true
}

// Does the slice hold a well-formed table?
#[tactic(auto, using(std::proofs::lemmas::Bool::Decides::nat_tests, laws::specs::Words::members_length), unfolding(model::specs::Table::well_formed, model::specs::Table::formed))]
pub fn well_formed(t: &[u32]) -> bool
    ensures { result ≡ well_formed t.now }
{
    if t.len() < words::HEADER {
        return false;
    }
    let r = t[words::R] as usize;
    let n = t[words::COUNT] as usize;
    if r < 1 {
        return false;
    }
    if 8 < r {
        return false;
    }
    if 256 < n {
        return false;
    }
    if t[words::STEPS] != 0 {
        return false;
    }
    if t.len() < words::offset(r, n) {
        return false;
    }
    records_ok(words::records_of(t), r, n)
}

// How many members stand below the identifier x, by halves: std's `partition_point` looks through a slice of values, and a record is r + 5 of them.
#[tactic(auto, using(crate::proofs::Members::id_at_law, crate::proofs::Members::record_fits, crate::proofs::Members::ids_count, crate::proofs::Place::rank_up, crate::proofs::Place::rank_down, crate::proofs::Place::rank_most))]
pub fn rank(t: &[u32], x: u32) -> usize
    requires { FormedWords t.now }
    ensures { (result ≡ rank_of (ids (members_in t.now)) x) × (result ≤ get_or t.now 1 0) }
{
    let r = t[words::R] as usize;
    let n = t[words::COUNT] as usize;
    let mut lo: usize = 0;
    let mut hi = n;
    while lo < hi {
        let mid = (lo + hi) / 2;
        let at = words::offset(r, mid);
        if t[at] < x {
            lo = mid + 1;
        } else {
            hi = mid;
        }
    }
    lo
}

// Does the member x stand at place k?
#[tactic(auto, using(std::proofs::lemmas::Bool::Decides::nat_tests, crate::proofs::Members::id_at_law))]
pub fn stands_at(t: &[u32], k: usize, x: u32) -> bool
    requires { FormedWords t.now }
    ensures { result ≡ (ltb k (get_or t.now 1 0) && eqb (get_or (ids (members_in t.now)) k 0) x) }
{
    let r = t[words::R] as usize;
    let n = t[words::COUNT] as usize;
    k < n && t[words::offset(r, k)] == x
}

// How many members stand below x: as many as guessed, if x stands there; else by halves.
#[tactic(auto, using(crate::proofs::Place::stands_rank))]
pub fn rank_from(t: &[u32], guess: usize, x: u32) -> usize
    requires { FormedWords t.now }
    ensures { (result ≡ rank_of (ids (members_in t.now)) x) × (result ≤ get_or t.now 1 0) }
{
    if stands_at(t, guess, x) {
        guess
    } else {
        rank(t, x)
    }
}

// Where does x stand among the members? Err: the place where it would stand, as std's `binary_search` says it.
#[tactic(auto, using(crate::proofs::Place::stands_member))]
pub fn locate(t: &[u32], x: u32) -> Result<usize, usize>
    requires { FormedWords t.now }
    ensures { result ≡ located t.now x }
{
    let k = rank(t, x);
    if stands_at(t, k, x) { Ok(k) } else { Err(k) }
}

// The word i of the record at place k, before its list: identifier, predecessor, pending or candidate.
#[tactic(auto, using(crate::proofs::Members::word_there, crate::proofs::Members::record_fits))]
pub fn word_at(t: &[u32], k: usize, i: usize) -> u32
    requires formed_words { FormedWords t.now }
    requires k_bound { (k < get_or t.now 1 0) × (i < 4) }
    ensures { result ≡ get_or (record_of (get_or (members_in t.now) k nobody)) i 0 }
{
    let r = t[words::R] as usize;
    let at = words::offset(r, k);
    t[at + i]
}

// The member at place k.
#[tactic(auto, using(crate::proofs::Members::whole, crate::proofs::Members::record_fits))]
pub fn member_at(t: &[u32], k: usize) -> Member
    requires formed_words { FormedWords t.now }
    requires k_bound { k < get_or t.now 1 0 }
    ensures { view (get_or t.now 0 0) result ≡ get_or (members_in t.now) k nobody }
{
    let r = t[words::R] as usize;
    let at = words::offset(r, k);
    words::read_member(&t[at..], r)
}
