// Find: the walk to the owner of a key.
#![tactic(auto)]

ghost use Rattle.std.specs.Prelude.{◌≡◌, ◌<◌, get_or};
ghost use Rattle.model.specs.Table.{members_in, ids};
ghost use Rattle.model.specs.Steps.{lookup as lookupOf};
ghost use Rattle.model.specs.Calls.{lookup_answer};
ghost use Rattle.table.specs.FormedWords.{FormedWords};
ghost use Rattle.answers.specs.Found.{answer_of};

use answers::found::{Found, NotFound};

// The walk from the member at a place: the owner of the key and where it was found, or the member without a live entry.
fn walk(t: &[u32], start: usize, k: u32) -> Result<Found, NotFound>
    requires formed_words { FormedWords t.now }
    requires start_bound { start < get_or t.now 1 0 }
    ensures { answer_of result ≡ lookupOf (members_in t.now) (get_or (ids (members_in t.now)) start 0) k }
{
    let mut place = start;
    let mut at = best_successors::id_at(t, start);
    let mut passed = 0;
    for moves in 0..t[words::COUNT] {
        let best = best_successors::best_of(t, place);
        let Some(next) = best.place else {
            return Err(NotFound::Stuck(at));
        };
        place = next;
        passed += best.passed as u32;
        let owner = best_successors::id_at(t, place);
        if k == owner || ident::between(at, k, owner) {
            return Ok(Found {
                owner,
                at,
                moves,
                passed,
            });
        }
        at = owner;
    }
    // Not reached: each move leaves fewer members on the way to the key, so the walk ends within n places (Lookup in `theory`).
    Err(NotFound::Stuck(at))
}

// Find key k from the member n: owner, the member it was found at, the moves and the entries passed over; or 1 or 3; or 8 and the member stood at.
pub fn lookup(t: &[u32], n: u32, k: u32) -> Result<Found, NotFound>
    ensures { answer_of result ≡ lookup_answer t.now n k }
{
    let place = standing::standing_of(t, n)?;
    walk(t, place, k)
}
