// Principals: the members that no extended successor list skips. What a pair of a list skips is a range of places. The ranges are marked as
// reaches, a number h at place k for the members from k to below h, and then read off once: no member is tested against every pair.
// For the crates above, which hand over a well-formed table.
#![tactic(auto)]

ghost use Rattle.std.specs.Prelude.{◌≡◌, ◌&&◌, suc, ◌≤◌, ◌<◌, leb, ltb, length, get_or, replicate};
ghost use Rattle.model.specs.Identifier.{between};
ghost use Rattle.model.specs.Table.{members_in, ids};
ghost use Rattle.model.specs.Ring.{nobody, skips, principals};
ghost use Rattle.table.specs.FormedWords.{FormedWords};
ghost use Rattle.table.specs.Rank.{rank as rank_of};
ghost use Rattle.places.specs.Each.{Each};
ghost use Rattle.principal.specs.Marks.{Marks, Skipped, principal_bit};

// The members from place lo to below hi are marked.
fn cover(reach: &mut [u16; 256], lo: usize, hi: usize)
    requires { (hi ≤ 256) × (length reach.old ≡ 256) }
    ensures { Marks 256 (λ j. leb lo j && ltb j hi) reach.old reach.new }
{
    if hi <= lo {
        return;
    }
    let end = hi as u16;
    if end <= reach[lo] {
        return;
    }
    reach[lo] = end;
}

// The members between q and b are marked: lo members are not above q, and hi are below b.
fn mark_pair(t: &[u32], reach: &mut [u16; 256], q: u32, lo: usize, b: u32, hi: usize)
    requires formed_words { FormedWords t.now }
    requires lo_value { (lo ≡ rank_of (ids (members_in t.now)) (suc q)) × (hi ≡ rank_of (ids (members_in t.now)) b) × (hi ≤ get_or t.now 1 0) }
    requires reach_len { length reach.old ≡ 256 }
    ensures { Marks (get_or t.now 1 0) (λ j. between q (get_or (ids (members_in t.now)) j 0) b) reach.old reach.new }
{
    if q < b {
        cover(reach, lo, hi);
        return;
    }
    let n = t[words::COUNT] as usize;
    cover(reach, lo, n);
    cover(reach, 0, hi);
}

// How many members are not above b, where k are below it.
fn rank_past(t: &[u32], k: usize, b: u32) -> usize
    requires formed_words { FormedWords t.now }
    requires k_value { (k ≡ rank_of (ids (members_in t.now)) b) × (k ≤ get_or t.now 1 0) }
    ensures { result ≡ rank_of (ids (members_in t.now)) (suc b) }
{
    if table::stands_at(t, k, b) {
        return k + 1;
    }
    k
}

// The members that the list of the member at place k skips are marked.
fn mark_list(t: &[u32], reach: &mut [u16; 256], k: usize)
    requires formed_words { FormedWords t.now }
    requires k_bound { (k < get_or t.now 1 0) × (length reach.old ≡ 256) }
    ensures { Marks (get_or t.now 1 0)
        (λ j. skips (get_or (ids (members_in t.now)) j 0) (get_or (ids (members_in t.now)) k 0)
        (get_or (members_in t.now) k nobody).successors) reach.old reach.new }
{
    let r = t[words::R] as usize;
    let at = words::offset(r, k);
    let from = at + words::LIST;
    let end = from + r;
    let mut q = t[at];
    let mut lo = k + 1;
    for &b in &t[from..end] {
        let hi = table::rank_from(t, lo, b);
        mark_pair(t, reach, q, lo, b, hi);
        lo = rank_past(t, hi, b);
        q = b;
    }
}

// The members that some list skips are marked, where none was.
fn mark_skipped(t: &[u32], reach: &mut [u16; 256])
    requires formed_words { FormedWords t.now }
    requires reach_value { reach.old ≡ replicate 256 0 }
    ensures { (length reach.new ≡ 256) × Skipped t.now reach.new }
{
    let n = t[words::COUNT] as usize;
    for k in 0..n {
        mark_list(t, reach, k);
    }
}

// By place, into an array of zeros: 1 for a principal, else 0. Each number takes the place of the reach that was read there.
fn fill_bits(t: &[u32], a: &mut [u16; 256])
    requires formed_words { FormedWords t.now }
    requires a_value { a.old ≡ replicate 256 0 }
    ensures { (length a.new ≡ 256) × Each (members_in t.now) (principal_bit (members_in t.now)) (get_or t.now 1 0) a.new }
{
    let n = t[words::COUNT] as usize;
    mark_skipped(t, a);
    let mut top: u16 = 0;
    for k in 0..n {
        top = top.max(a[k]);
        a[k] = u16::from(top <= k as u16);
    }
}

// The same as an array.
pub fn principal_bits(t: &[u32]) -> [u16; 256]
    requires { FormedWords t.now }
    ensures { Each (members_in t.now) (principal_bit (members_in t.now)) (get_or t.now 1 0) result }
{
    let mut a = [0u16; 256];
    fill_bits(t, &mut a);
    a
}

// How many members are principals. The array is filled where it stands: as a value it would be copied twice.
pub fn count_principals(t: &[u32]) -> usize
    requires { FormedWords t.now }
    ensures { (result ≡ principals (members_in t.now)) × (result ≤ get_or t.now 1 0) }
{
    let n = t[words::COUNT] as usize;
    let mut a = [0u16; 256];
    fill_bits(t, &mut a);
    places::count_of(&a, n, 1)
}
