// Audit: members, principals, ring members, and the verdict.
#![tactic(auto)]

ghost use Rattle.std.specs.Prelude.{◌≡◌};
ghost use Rattle.model.specs.Table.{table_of};
ghost use Rattle.model.specs.Steps.{audit_reply};
ghost use Rattle.model.specs.Calls.{audit_answer};
ghost use Rattle.table.specs.FormedWords.{FormedWords};
ghost use Rattle.answers.specs.Report.{values_of, answer_of};

use answers::refusal::Refusal;
use answers::report::Report;

// The audit of a well-formed table.
fn audit_of(t: &[u32]) -> Report
    requires { FormedWords t.now }
    ensures { values_of result ≡ audit_reply (table_of t.now) }
{
    let best = best_successors::best_places(t);
    let principals = principal::count_principals(t);
    Report {
        members: t[words::COUNT],
        principals: principals as u32,
        ring_members: ring::count_ring(t, &best) as u32,
        verdict: verdict::verdict_of(t, &best, principals),
    }
}

// The audit: members, principals, ring members and the verdict; or 1.
pub fn audit(t: &[u32]) -> Result<Report, Refusal>
    ensures { answer_of result ≡ audit_answer t.now }
{
    if !table::well_formed(t) {
        return Err(Refusal::NotWellFormed);
    }
    Ok(audit_of(t))
}
