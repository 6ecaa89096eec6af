// Best successors, by places in the table: the moves round the ring go by them. For the crates above; each function asks for a well-formed table.
#![tactic(auto)]

ghost use Rattle.std.specs.Prelude.{◌≡◌, ◌<◌, ◌≤◌, length, get_or};
ghost use Rattle.model.specs.Lists.{every};
ghost use Rattle.model.specs.Table.{members_in, ids};
ghost use Rattle.model.specs.Ring.{nobody, has_live, searched, passed_by, passed_by_all};
ghost use Rattle.table.specs.FormedWords.{FormedWords};
ghost use Rattle.best_successors.specs.Places.{place_of, first_place, next_place, at_place, BestPlaces};

// What the search of a list for its first live entry tells.
#[derive(Clone, Copy)]
pub struct Best {
    // the place of that entry, where one is live
    pub place: Option<usize>,
    // how many entries were passed over
    pub passed: usize,
}

// The identifier of the member at a place.
pub fn id_at(t: &[u32], k: usize) -> u32
    requires formed_words { FormedWords t.now }
    requires k_bound { k < get_or t.now 1 0 }
    ensures { result ≡ get_or (ids (members_in t.now)) k 0 }
{
    let r = t[words::R] as usize;
    let at = words::offset(r, k);
    t[at]
}

// The place of the member x, where x is one; looked for first at the place guessed.
pub fn place(t: &[u32], guess: usize, x: u32) -> Option<usize>
    requires formed_words { FormedWords t.now }
    requires guess_bound { guess < get_or t.now 1 0 }
    ensures { result ≡ at_place (get_or t.now 1 0) (place_of (ids (members_in t.now)) x) }
{
    if id_at(t, guess) == x {
        return Some(guess);
    }
    let k = table::rank(t, x);
    if table::stands_at(t, k, x) {
        return Some(k);
    }
    None
}

// The search of a list for its first live entry; each is looked for first at the place guessed.
pub fn first_live(t: &[u32], guess: usize, l: &[u32]) -> Best
    requires formed_words { FormedWords t.now }
    requires guess_bound { guess < get_or t.now 1 0 }
    ensures { (result.place ≡ at_place (get_or t.now 1 0) (first_place (members_in t.now) l.now)) × (result.passed ≡ (searched (members_in t.now) l.now).passed) }
{
    for (passed, &x) in l.iter().enumerate() {
        let place = place(t, guess, x);
        if place.is_some() {
            return Best { place, passed };
        }
    }
    Best {
        place: None,
        passed: l.len(),
    }
}

// The place after k, round the end: where the best successor of the member at k stands on a settled ring.
fn place_after(n: usize, k: usize) -> usize
    requires { k < n }
    ensures { result < n }
{
    if k + 1 < n {
        return k + 1;
    }
    0
}

// The search of the list of the member at place k: where its best successor stands, if it has one. On a settled ring the first look finds it.
pub fn best_of(t: &[u32], k: usize) -> Best
    requires formed_words { FormedWords t.now }
    requires k_bound { k < get_or t.now 1 0 }
    ensures { (result.place ≡ at_place (get_or t.now 1 0) (next_place (members_in t.now) k))
        × (result.passed ≡ passed_by (members_in t.now) (get_or (members_in t.now) k nobody)) × (result.passed ≤ get_or t.now 0 0) }
{
    let r = t[words::R] as usize;
    let n = t[words::COUNT] as usize;
    let at = words::offset(r, k) + words::LIST;
    let end = at + r;
    let l = &t[at..end];
    let next = place_after(n, k);
    if id_at(t, next) == l[0] {
        return Best {
            place: Some(next),
            passed: 0,
        };
    }
    first_live(t, next, l)
}

// The search of each list: the places of all best successors are put into the array, and the entries passed over are added up.
pub fn fill_best(t: &[u32], best: &mut [u16; 256]) -> u32
    requires formed_words { FormedWords t.now }
    requires best_len { length best.old ≡ 256 }
    ensures { BestPlaces t.now best.new × (result ≡ passed_by_all (members_in t.now)) }
{
    let n = t[words::COUNT] as usize;
    let mut passed: u32 = 0;
    for k in 0..n {
        let s = best_of(t, k);
        // None is kept as n: the memory is fixed, and `ring` and `moves` follow n as a place that stays.
        best[k] = s.place.unwrap_or(n) as u16;
        passed += s.passed as u32;
    }
    passed
}

// The places of all best successors, each found once.
pub fn best_places(t: &[u32]) -> [u16; 256]
    requires { FormedWords t.now }
    ensures { BestPlaces t.now result }
{
    let mut a = [0u16; 256];
    fill_best(t, &mut a);
    a
}

// Has each member's list a live entry?
pub fn all_live(t: &[u32], best: &[u16; 256]) -> bool
    requires formed_words { FormedWords t.now }
    requires best_places { BestPlaces t.now best.now }
    ensures { result ≡ every (has_live (members_in t.now)) (members_in t.now) }
{
    let n = t[words::COUNT] as usize;
    !best[..n].contains(&(n as u16))
}
