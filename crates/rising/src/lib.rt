// Rising identifiers: whether they rise, the places of each one's neighbours, round the end, and how many are at or below another.
// For `new_table` and `held`; a caller of the library uses none of this.
#![tactic(auto)]

ghost use Rattle.std.specs.Prelude.{◌≡◌, true, ◌<◌, length, get_or};
ghost use Rattle.model.specs.Lists.{rising};
ghost use Rattle.model.specs.Ring.{next_up, next_down};
ghost use Rattle.model.specs.Held.{keys_to};

// Do the identifiers strictly rise?
pub fn is_rising(xs: &[u32]) -> bool
    ensures { result ≡ rising xs.now }
{
    xs.is_sorted_by(|a, b| a < b)
}

// The place of the next identifier up from the one at place i, round the end.
pub fn place_above(xs: &[u32], i: usize) -> usize
    requires { (rising xs.now ≡ true) × (i < length xs.now) }
    ensures { (result < length xs.now) × (get_or xs.now result 0 ≡ next_up xs.now (get_or xs.now i 0)) }
{
    let next = i + 1;
    if next < xs.len() {
        return next;
    }
    0
}

// The place of the next identifier down from the one at place i, round the end.
pub fn place_below(xs: &[u32], i: usize) -> usize
    requires { (rising xs.now ≡ true) × (i < length xs.now) }
    ensures { (result < length xs.now) × (get_or xs.now result 0 ≡ next_down xs.now (get_or xs.now i 0)) }
{
    if i < 1 {
        return xs.len() - 1;
    }
    i - 1
}

// How many of rising keys are at or below x, by halves.
pub fn keys_to(ks: &[u32], x: u32) -> usize
    requires { rising ks.now ≡ true }
    ensures { result ≡ keys_to ks.now x }
{
    ks.partition_point(|&k| k <= x)
}
