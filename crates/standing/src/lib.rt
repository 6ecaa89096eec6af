// What the calls of one member share: where it stands, or why the call is declined.
#![tactic(auto)]

ghost use Rattle.std.specs.Prelude.{length};
ghost use Rattle.model.specs.Table.{members_in, ids};
ghost use Rattle.model.specs.Refusals.{member_refusal};
ghost use Rattle.table.specs.Rank.{rank};
ghost use Rattle.answers.specs.Judged.{Judges};

use answers::refusal::Refusal;

// Where the member n stands: at its rank; or 1 or 3.
pub fn standing_of(t: &[u32], n: u32) -> Result<usize, Refusal>
    ensures { Judges (member_refusal t.now n) (rank (ids (members_in t.now)) n) result }
{
    if !table::well_formed(t) {
        return Err(Refusal::NotWellFormed);
    }
    table::locate(t, n).or(Err(Refusal::NotMember))
}
