// One finding of the audit, and what all findings of a table need, each number computed once. For the crate `findings`.
#![tactic(auto)]

ghost use Rattle.std.specs.Prelude.{◌≡◌, ◌<◌, get_or};
ghost use Rattle.model.specs.Table.{members_in, table_of, ids};
ghost use Rattle.model.specs.Ring.{moves_to_ring};
ghost use Rattle.model.specs.Findings.{finding_of};
ghost use Rattle.model.specs.Refusals.{findings_refusal};
ghost use Rattle.model.specs.Steps.{audit_reply};
ghost use Rattle.table.specs.FormedWords.{FormedWords};
ghost use Rattle.principal.specs.Marks.{principal_bit};
ghost use Rattle.answers.specs.Judged.{Judges};
ghost use Rattle.answers.specs.Report.{values_of};
ghost use Rattle.finding.specs.View.{view};
ghost use Rattle.finding.specs.Survey.{Surveyed};

use answers::refusal::Refusal;
use answers::report::Report;

// One member's finding: identifier, 1 for a principal and else 0, moves to the ring (0 on it; the member count if the walk never comes there).
#[repr(C)]
#[derive(Clone, Copy)]
pub struct Finding {
    pub id: u32,
    pub principal: u32,
    pub moves: u32,
}

// What is computed of a table before its findings are written.
#[derive(Clone, Copy)]
pub struct Survey {
    // what the call answers
    pub reply: Report,
    // how many findings are to be written
    pub members: usize,
    // by place: 1 for a principal, else 0
    pub principal: [u16; 256],
    // by place: the moves to the ring
    pub moves: [u16; 256],
}

// The survey of a well-formed table: all its members. Those on the ring are those with no move to make.
pub fn survey_of(t: &[u32]) -> Survey
    requires { FormedWords t.now }
    ensures { Surveyed t.now result × (result.members ≡ get_or t.now 1 0) × (values_of result.reply ≡ audit_reply (table_of t.now)) }
{
    let n = t[words::COUNT] as usize;
    let best = best_successors::best_places(t);
    let moves = moves::all_moves(t, &best);
    let principal = principal::principal_bits(t);
    let on = places::count_of(&moves, n, 0);
    let count = places::count_of(&principal, n, 1);
    let reply = Report {
        members: t[words::COUNT],
        principals: count as u32,
        ring_members: on as u32,
        verdict: verdict::verdict_of(t, &best, count),
    };
    Survey {
        reply,
        members: n,
        principal,
        moves,
    }
}

// May the findings go into a list of `room` records? Or 1 or 10.
pub fn judged(t: &[u32], room: usize) -> Result<(), Refusal>
    ensures { Judges (findings_refusal t.now room) tt result }
{
    if !table::well_formed(t) {
        return Err(Refusal::NotWellFormed);
    }
    if room < t[words::COUNT] as usize {
        return Err(Refusal::TooShort);
    }
    Ok(())
}

// The finding of the member at place k, of its two numbers in a survey.
pub fn finding_at(t: &[u32], principal: u16, moves: u16, k: usize) -> Finding
    requires { FormedWords t.now × (k < get_or t.now 1 0) × (principal ≡ principal_bit (members_in t.now) (get_or (ids (members_in t.now)) k 0))
        × (moves ≡ moves_to_ring (members_in t.now) (get_or (ids (members_in t.now)) k 0)) }
    ensures { view result ≡ finding_of (members_in t.now) (get_or (ids (members_in t.now)) k 0) }
{
    Finding {
        id: best_successors::id_at(t, k),
        principal: principal as u32,
        moves: moves as u32,
    }
}
