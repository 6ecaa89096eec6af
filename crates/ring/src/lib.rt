// The members on the ring: those on a cycle of moves, found by doubling the moves. For the crates above, which hand over a well-formed table and
// its best successors.
#![tactic(auto)]

ghost use Rattle.std.specs.Prelude.{◌≡◌, ◌≤◌, length, get_or};
ghost use Rattle.model.specs.Table.{members_in};
ghost use Rattle.model.specs.Ring.{ring_members};
ghost use Rattle.table.specs.FormedWords.{FormedWords};
ghost use Rattle.places.specs.Each.{Each};
ghost use Rattle.best_successors.specs.Places.{BestPlaces};
ghost use Rattle.ring.specs.Far.{from_place, Doubled, FarPlaces, Marked, ring_bit};

// Where an array's moves lead from place j; the member count n stands for none and stays.
fn onward(a: &[u16; 256], n: usize, j: u16) -> u16
    requires { n ≤ 256 }
    ensures { result ≡ from_place n a.now j }
{
    let k = j as usize;
    if k < n {
        return a[k];
    }
    n as u16
}

// The places that an array's moves, made twice, lead to.
fn doubled(a: &[u16; 256], n: usize) -> [u16; 256]
    requires { n ≤ 256 }
    ensures { Doubled n a.now result }
{
    let mut d = [0u16; 256];
    for (k, &j) in a[..n].iter().enumerate() {
        d[k] = onward(a, n, j);
    }
    d
}

// The places that as many moves as there are members, or more, lead to: found by doubling the moves.
fn far_places(t: &[u32], best: &[u16; 256]) -> [u16; 256]
    requires formed_words { FormedWords t.now }
    requires best_places { BestPlaces t.now best.now }
    ensures { FarPlaces t.now result }
{
    let n = t[words::COUNT] as usize;
    let mut a = doubled(best, n);
    let mut moves: usize = 2;
    while moves < n {
        a = doubled(&a, n);
        moves += moves;
    }
    a
}

// By place: 1 where the place is one of the first n numbers, else 0.
fn marks(a: &[u16; 256], n: usize) -> [u16; 256]
    requires { (n ≤ 256) × (n ≤ length a.now) }
    ensures { Marked n a.now result }
{
    let none = n as u16;
    let mut m = [0u16; 256];
    for &j in &a[..n] {
        if j < none {
            m[j as usize] = 1;
        }
    }
    m
}

// By place: 1 for a member on the ring, else 0. On it are those that so many moves lead to.
pub fn ring_bits(t: &[u32], best: &[u16; 256]) -> [u16; 256]
    requires formed_words { FormedWords t.now }
    requires best_places { BestPlaces t.now best.now }
    ensures { Each (members_in t.now) (ring_bit (members_in t.now)) (get_or t.now 1 0) result }
{
    let n = t[words::COUNT] as usize;
    let far = far_places(t, best);
    marks(&far, n)
}

// How many members are on the ring.
pub fn count_ring(t: &[u32], best: &[u16; 256]) -> usize
    requires formed_words { FormedWords t.now }
    requires best_places { BestPlaces t.now best.now }
    ensures { (result ≡ ring_members (members_in t.now)) × (result ≤ get_or t.now 1 0) }
{
    let n = t[words::COUNT] as usize;
    let on = ring_bits(t, best);
    places::count_of(&on, n, 1)
}
