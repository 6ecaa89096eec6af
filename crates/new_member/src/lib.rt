// One record of a new table. For `new_table`; a caller of the library uses none of this.
#![tactic(auto)]

ghost use Rattle.std.specs.Prelude.{◌≡◌, true, [], ◌∷◌, ◌+◌, ◌≤◌, ◌<◌, length, get_or, drop};
ghost use Rattle.model.specs.Lists.{rising, overlay};
ghost use Rattle.model.specs.Table.{record_size, record_of};
ghost use Rattle.model.specs.Ring.{next_down};
ghost use Rattle.model.specs.New.{new_member};

// What stands before the list in the record of the identifier at place i: itself, the next down, and no candidate.
fn write_front(part: &mut [u32], xs: &[u32], i: usize)
    requires { (rising xs.now ≡ true) × (i < length xs.now) × (record_size 0 ≤ length part.old) }
    ensures { part.new ≡ overlay (get_or xs.now i 0 ∷ next_down xs.now (get_or xs.now i 0) ∷ 0 ∷ 0 ∷ []) part.old }
{
    let below = rising::place_below(xs, i);
    part[words::ID] = xs[i];
    part[words::PREDECESSOR] = xs[below];
    part[words::PENDING] = 0;
    part[words::CANDIDATE] = 0;
}

// The record of the identifier at place i with the next r up, round the end.
pub fn write_round(part: &mut [u32], xs: &[u32], i: usize, r: usize)
    requires { (rising xs.now ≡ true) × (i < length xs.now) × (record_size r ≤ length part.old) }
    ensures { part.new ≡ overlay (record_of (new_member r xs.now (get_or xs.now i 0))) part.old }
{
    write_front(part, xs, i);
    let mut j = i;
    for entry in &mut part[words::LIST..words::LIST + r] {
        j = rising::place_above(xs, j);
        *entry = xs[j];
    }
    part[words::LIST + r] = 0;
}

// The record of the identifier at place i with the next r up, where none of the next eight goes round the end: all eight are written at once, and the
// step count over or after them. The words after a record with eight stay.
pub fn write_ahead(part: &mut [u32], xs: &[u32], i: usize, r: usize)
    requires { (rising xs.now ≡ true) × (i + 8 < length xs.now) × (r ≤ 8) × (record_size 8 ≤ length part.old) }
    ensures { (part.new ≡ overlay (record_of (new_member r xs.now (get_or xs.now i 0))) part.new)
        × (drop (record_size 8) part.new ≡ drop (record_size 8) part.old) }
{
    write_front(part, xs, i);
    let above = i + 1;
    entries::write_eight(&mut part[words::LIST..], &xs[above..]);
    part[words::LIST + r] = 0;
}
