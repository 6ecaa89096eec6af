// One stabilize step of the member at a place, on a table known to be well-formed. For the crates above.
#![tactic(auto)]

ghost use Rattle.std.specs.Prelude.{◌≡◌, ◌<◌, get_or};
ghost use Rattle.model.specs.Table.{members_in, table_of, ids};
ghost use Rattle.model.specs.Ring.{named};
ghost use Rattle.model.specs.Steps.{stabilize_reply, stabilized};
ghost use Rattle.model.specs.Calls.{written};
ghost use Rattle.table.specs.FormedWords.{FormedWords};
ghost use Rattle.table.specs.Located.{Stands};
ghost use Rattle.answers.specs.Step.{values_of};
ghost use Rattle.stabilize_at.specs.TakenStep.{Taken};

use answers::step::Step;
use member::Member;

// One step of a member.
#[derive(Clone, Copy)]
struct TakenStep {
    // the record that it leaves
    member: Member,
    // what it replies
    reply: Step,
}

// Pending 0, and the successor stands at place k: it is adopted, and its predecessor may be a better candidate.
fn from_successor(t: &[u32], m: Member, k: usize) -> TakenStep
    requires formed_words { FormedWords t.now }
    requires fact { (m.pending ≡ 1 → ⊥) × Stands t.now k (get_or m.successors 0 0) }
    ensures { Taken t.now m result }
{
    let h = m.successors[0];
    let s = table::member_at(t, k);
    let c = s.predecessor;
    let member = m.adopt(h, s.successors);
    if ident::between(m.id, c, h) {
        return TakenStep {
            member: member.await_candidate(c),
            reply: Step::Look(c),
        };
    }
    TakenStep {
        member,
        reply: Step::Done(h),
    }
}

// Pending 1: the candidate is adopted if it is a member, and nothing is pending any more.
fn from_predecessor(t: &[u32], m: Member) -> TakenStep
    requires formed_words { FormedWords t.now }
    requires pending_value { m.pending ≡ 1 }
    ensures { Taken t.now m result }
{
    let c = m.candidate;
    let Ok(k) = table::locate(t, c) else {
        return TakenStep {
            member: m.clear_pending(),
            reply: Step::Done(m.successors[0]),
        };
    };
    let s = table::member_at(t, k);
    TakenStep {
        member: m.adopt(c, s.successors).clear_pending(),
        reply: Step::Done(c),
    }
}

// The step of the member m.
fn take_step(t: &[u32], m: Member) -> TakenStep
    requires { FormedWords t.now }
    ensures { Taken t.now m result }
{
    if m.pending == 1 {
        return from_predecessor(t, m);
    }
    let h = m.successors[0];
    let Ok(k) = table::locate(t, h) else {
        let r = t[words::R] as usize;
        return TakenStep {
            member: m.drop_head(r),
            reply: Step::Again,
        };
    };
    from_successor(t, m, k)
}

// One step of the member at place k, which its own record counts.
pub fn stabilize_at(t: &mut [u32], k: usize) -> Step
    requires formed_words { FormedWords t.old }
    requires k_bound { k < get_or t.old 1 0 }
    ensures { (values_of result ≡ stabilize_reply (members_in t.old)
        (named (members_in t.old) (get_or (ids (members_in t.old)) k 0)))
        × (t.new ≡ written (stabilized (get_or (ids (members_in t.old)) k 0) (table_of t.old)) t.old) }
{
    let m = table::member_at(t, k);
    let step = take_step(t, m);
    let n = step.member.count_step();
    records::replace_at(t, k, n);
    step.reply
}
