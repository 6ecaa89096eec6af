// The objects a shelf holds: the runs of a rising list of keys that belong to one member.
#![tactic(auto)]

ghost use Rattle.std.specs.Prelude.{◌≡◌, true, ◌<◌, get_or};
ghost use Rattle.model.specs.Lists.{rising};
ghost use Rattle.model.specs.Table.{members_in, ids};
ghost use Rattle.model.specs.Held.{runs_of, bounds};
ghost use Rattle.model.specs.Calls.{held_answer};
ghost use Rattle.table.specs.FormedWords.{FormedWords};
ghost use Rattle.answers.specs.Runs.{answer_of, values_of};

use answers::refusal::Refusal;
use answers::runs::{Run, Runs};

// The runs of the member at a place: two of the lowest, one of any other.
fn runs_at(t: &[u32], at: usize, ks: &[u32]) -> Runs
    requires formed_words { FormedWords t.now }
    requires at_bound { at < get_or t.now 1 0 }
    requires ks_value { rising ks.now ≡ true }
    ensures { values_of result ≡ bounds (runs_of (members_in t.now) (get_or (ids (members_in t.now)) at 0) ks.now) }
{
    let own = rising::keys_to(ks, best_successors::id_at(t, at));
    if at == 0 {
        let last = t[words::COUNT] as usize - 1;
        let above = Run {
            start: rising::keys_to(ks, best_successors::id_at(t, last)),
            end: ks.len(),
        };
        return Runs::Two(above, Run { start: 0, end: own });
    }
    let before = rising::keys_to(ks, best_successors::id_at(t, at - 1));
    Runs::One(Run {
        start: before,
        end: own,
    })
}

// The runs of the keys that the member n holds, or 1, 3 or 12.
pub fn held(t: &[u32], n: u32, ks: &[u32]) -> Result<Runs, Refusal>
    ensures { answer_of result ≡ held_answer t.now n ks.now }
{
    let at = standing::standing_of(t, n)?;
    if !rising::is_rising(ks) {
        return Err(Refusal::NotRising);
    }
    Ok(runs_at(t, at, ks))
}
