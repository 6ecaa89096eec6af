// Moves to the ring, by places in the table: each is found once, on one walk for each way. For the crates above; each function asks for a
// well-formed table and its best successors.
#![tactic(auto)]

ghost use Rattle.std.specs.Prelude.{◌≡◌, ◌<◌, get_or};
ghost use Rattle.model.specs.Table.{members_in};
ghost use Rattle.model.specs.Ring.{moves_to_ring};
ghost use Rattle.table.specs.FormedWords.{FormedWords};
ghost use Rattle.places.specs.Each.{Each};
ghost use Rattle.best_successors.specs.Places.{BestPlaces};
ghost use Rattle.moves.specs.Ways.{AllSoFar, KnownAt, Measured};

// A way of so many places whose moves to the ring are not known, and the moves from where it leads: the member count if nowhere, as in the model.
#[derive(Clone, Copy)]
struct Way {
    steps: usize,
    value: u16,
}

// The way from place k. The array has by place one more than the moves to the ring, or 0 where they are not known.
fn way_from(t: &[u32], best: &[u16; 256], a: &[u16; 256], k: usize) -> Way
    requires formed_words { FormedWords t.now }
    requires best_places { BestPlaces t.now best.now }
    requires all_so_far { AllSoFar t.now a.now }
    requires k_bound { (k < get_or t.now 1 0) × (get_or a.now k 0 ≡ 0) }
    ensures { Measured t.now k result.steps result.value }
{
    let n = t[words::COUNT] as usize;
    let never = n as u16;
    let mut y = k;
    for c in 0..n {
        y = best[y] as usize;
        if n <= y {
            return Way {
                steps: c + 1,
                value: never,
            };
        }
        let v = a[y];
        if 0 < v {
            return Way {
                steps: c + 1,
                value: v - 1,
            };
        }
    }
    // Not reached: n moves among n places come to one twice. That one is on the ring, where the moves are known.
    Way {
        steps: 1,
        value: never,
    }
}

// The moves of each place of the way from place k are stored.
fn store_way(t: &[u32], best: &[u16; 256], a: &mut [u16; 256], k: usize, way: Way)
    requires formed_words { FormedWords t.now }
    requires best_places { BestPlaces t.now best.now }
    requires all_so_far { AllSoFar t.now a.old }
    requires measured { Measured t.now k way.steps way.value }
    ensures { KnownAt t.now k a.new }
{
    let n = t[words::COUNT] as u16;
    let v = way.value;
    let mut y = k;
    for left in (1..=way.steps).rev() {
        a[y] = (v + left as u16).min(n) + 1;
        y = best[y] as usize;
    }
}

// The moves at place k are stored, if they are not known, and with them those of its way.
fn find_moves(t: &[u32], best: &[u16; 256], a: &mut [u16; 256], k: usize)
    requires formed_words { FormedWords t.now }
    requires best_places { BestPlaces t.now best.now }
    requires all_so_far { AllSoFar t.now a.old }
    requires k_bound { k < get_or t.now 1 0 }
    ensures { KnownAt t.now k a.new }
{
    if 0 < a[k] {
        return;
    }
    let way = way_from(t, best, a, k);
    store_way(t, best, a, k, way);
}

// By place: the moves to the ring. Each is found once: no way is walked again. At first those of the ring are known.
pub fn all_moves(t: &[u32], best: &[u16; 256]) -> [u16; 256]
    requires formed_words { FormedWords t.now }
    requires best_places { BestPlaces t.now best.now }
    ensures { Each (members_in t.now) (moves_to_ring (members_in t.now)) (get_or t.now 1 0) result }
{
    let n = t[words::COUNT] as usize;
    let mut found = ring::ring_bits(t, best);
    let mut a = [0u16; 256];
    for k in 0..n {
        find_moves(t, best, &mut found, k);
        a[k] = found[k] - 1;
    }
    a
}
