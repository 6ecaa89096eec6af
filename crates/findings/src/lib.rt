// Findings: the audit that also fills a lent list of records, one a member.
#![tactic(auto)]

ghost use Rattle.std.specs.Prelude.{◌≡◌, ◌≤◌, length};
ghost use Rattle.model.specs.Table.{members_in};
ghost use Rattle.model.specs.Calls.{findings_answer, findings_after};
ghost use Rattle.answers.specs.Report.{answer_of};
ghost use Rattle.finding.specs.View.{views};
ghost use Rattle.finding.specs.Survey.{Surveyed};
ghost use Rattle.findings.specs.Filled.{filled};

use answers::refusal::Refusal;
use answers::report::Report;
use finding::{Finding, Survey};

// The findings that a survey counts, each in its place; later records stay.
fn fill(t: &[u32], s: Survey, out: &mut [Finding])
    requires { Surveyed t.now s × (s.members ≤ length out.old) }
    ensures { out.new ≡ filled (members_in t.now) s.members out.old }
{
    // Named apart: the survey is then on the stack once.
    let principal = s.principal;
    let moves = s.moves;
    for k in 0..s.members {
        out[k] = finding::finding_at(t, principal[k], moves[k], k);
    }
}

// The audit with its findings: one record a member in `out`, identifier, principal or not and moves to the ring; or 1; or 10 where `out` has fewer
// records than the table members. Later records stay, and all of them where a number declines the call.
pub fn findings(t: &[u32], out: &mut [Finding]) -> Result<Report, Refusal>
    ensures { (answer_of result ≡ findings_answer t.now (views out.old)) × (views out.new ≡ findings_after t.now (views out.old)) }
{
    finding::judged(t, out.len())?;
    let s = finding::survey_of(t);
    fill(t, s, out);
    Ok(s.reply)
}
