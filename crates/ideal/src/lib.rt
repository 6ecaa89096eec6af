// Is a well-formed table ideal: each list the next r members up, in order, each predecessor the next member down, round the end. For `verdict`; a caller
// of the library uses none of this.
#![tactic(auto)]

ghost use Rattle.std.specs.Prelude.{◌≡◌, ◌*◌, ◌≤◌, ◌<◌, length, get_or};
ghost use Rattle.model.specs.Lists.{same};
ghost use Rattle.model.specs.Table.{record_size, members_of, members_in, table_of, ids};
ghost use Rattle.model.specs.Ring.{nobody, next_up, next_down, next_ups, ideal_member, ideal};
ghost use Rattle.table.specs.FormedWords.{FormedWords};

// The place of the next member up from the one at place k, round the end.
fn place_above(t: &[u32], k: usize) -> usize
    requires formed_words { FormedWords t.now }
    requires k_bound { k < get_or t.now 1 0 }
    ensures { (result < get_or t.now 1 0) × (get_or (ids (members_in t.now)) result 0 ≡ next_up (ids (members_in t.now)) (get_or (ids (members_in t.now)) k 0)) }
{
    let n = t[words::COUNT] as usize;
    let next = k + 1;
    if next < n {
        return next;
    }
    0
}

// The identifier of the next member down from the one at place k, round the end.
fn id_below(t: &[u32], k: usize) -> u32
    requires formed_words { FormedWords t.now }
    requires k_bound { k < get_or t.now 1 0 }
    ensures { result ≡ next_down (ids (members_in t.now)) (get_or (ids (members_in t.now)) k 0) }
{
    if k < 1 {
        let last = t[words::COUNT] as usize - 1;
        return best_successors::id_at(t, last);
    }
    best_successors::id_at(t, k - 1)
}

// Are the entries of a list, one by one, the identifiers of the records at the front, as many as there are entries?
fn names_front(s: &[u32], r: usize, l: &[u32]) -> bool
    requires { (r ≤ 8) × (length l.now * record_size r ≤ length s.now) }
    ensures { result ≡ same l.now (ids (members_of r (length l.now) s.now)) }
{
    let w = words::record_size(r);
    for (x, record) in l.iter().zip(s.chunks_exact(w)) {
        if *x != record[words::ID] {
            return false;
        }
    }
    true
}

// Are the entries of a list, one by one, the next members up from the one at place k, round the end?
fn names_round(t: &[u32], k: usize, l: &[u32]) -> bool
    requires formed_words { FormedWords t.now }
    requires k_bound { k < get_or t.now 1 0 }
    ensures { result ≡ same l.now (next_ups (length l.now) (ids (members_in t.now)) (get_or (ids (members_in t.now)) k 0)) }
{
    let mut j = k;
    for &x in l {
        j = place_above(t, j);
        if x != best_successors::id_at(t, j) {
            return false;
        }
    }
    true
}

// The same; where as many members stand above place k, they are the records that follow its own.
fn names_next(t: &[u32], k: usize, l: &[u32]) -> bool
    requires formed_words { FormedWords t.now }
    requires k_bound { k < get_or t.now 1 0 }
    ensures { result ≡ same l.now (next_ups (length l.now) (ids (members_in t.now)) (get_or (ids (members_in t.now)) k 0)) }
{
    let r = t[words::R] as usize;
    let n = t[words::COUNT] as usize;
    let above = k + 1;
    if l.len() <= n - above {
        let at = words::offset(r, above);
        return names_front(&t[at..], r, l);
    }
    names_round(t, k, l)
}

// Is the member at place k ideal: its predecessor and its whole list?
fn member_ideal(t: &[u32], k: usize) -> bool
    requires formed_words { FormedWords t.now }
    requires k_bound { k < get_or t.now 1 0 }
    ensures { result ≡ ideal_member (get_or t.now 0 0) (ids (members_in t.now)) (get_or (members_in t.now) k nobody) }
{
    let r = t[words::R] as usize;
    let at = words::offset(r, k);
    if t[at + 1] != id_below(t, k) {
        return false;
    }
    let list = at + words::LIST;
    let end = list + r;
    names_next(t, k, &t[list..end])
}

// Is each member ideal?
pub fn is_ideal(t: &[u32]) -> bool
    requires { FormedWords t.now }
    ensures { result ≡ ideal (table_of t.now) }
{
    let n = t[words::COUNT] as usize;
    (0..n).all(|k| member_ideal(t, k))
}
