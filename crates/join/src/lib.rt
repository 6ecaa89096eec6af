// Join: a shelf becomes a member by another.
#![tactic(auto)]

ghost use Rattle.std.specs.Prelude.{◌≡◌, length, get_or};
ghost use Rattle.model.specs.Table.{members_in, table_of, ids};
ghost use Rattle.model.specs.Steps.{joiner as joinerOf, joined};
ghost use Rattle.model.specs.Refusals.{full, join_refusal};
ghost use Rattle.model.specs.Calls.{written, join_answer, join_words};
ghost use Rattle.member.specs.View.{view};
ghost use Rattle.table.specs.FormedWords.{FormedWords};
ghost use Rattle.table.specs.Rank.{rank};
ghost use Rattle.table.specs.Located.{Stands};
ghost use Rattle.answers.specs.Judged.{Judges};
ghost use Rattle.answers.specs.Count.{answer_of};
ghost use Rattle.join.specs.Admission.{Admits};

use answers::refusal::Refusal;
use member::Member;

// Is there no room for one more record?
fn is_full(t: &[u32]) -> bool
    requires { FormedWords t.now }
    ensures { result ≡ full t.now }
{
    let r = t[words::R] as usize;
    let n = t[words::COUNT] as usize;
    256 <= n || t.len() - words::offset(r, n) < words::record_size(r)
}

// May j join by p? The place where j is missing, and the place of p.
fn judged(t: &[u32], j: u32, p: u32) -> Result<(usize, usize), Refusal>
    ensures { Judges (join_refusal t.now j p) (rank (ids (members_in t.now)) j, rank (ids (members_in t.now)) p) result }
{
    if !table::well_formed(t) {
        return Err(Refusal::NotWellFormed);
    }
    let Err(at) = table::locate(t, j) else {
        return Err(Refusal::AlreadyMember);
    };
    let Ok(k) = table::locate(t, p) else {
        return Err(Refusal::NotMember);
    };
    let m = table::member_at(t, k);
    let h = m.successors[0];
    if !ident::between(p, j, h) {
        return Err(Refusal::NotBetween);
    }
    if table::locate(t, h).is_err() {
        return Err(Refusal::DeadFirstEntry);
    }
    if is_full(t) {
        return Err(Refusal::Full);
    }
    Ok((at, k))
}

// The new member j, with the list of p, which stands at place k.
fn joiner(t: &[u32], k: usize, j: u32, p: u32) -> Member
    requires formed_words { FormedWords t.now }
    requires stands { Stands t.now k p }
    ensures { view (get_or t.now 0 0) result ≡ joinerOf (members_in t.now) j p }
{
    let successors = table::member_at(t, k).successors;
    Member {
        id: j,
        predecessor: p,
        pending: 0,
        candidate: 0,
        successors,
        steps: 0,
    }
}

// j, which may join by p, is put in at its place: the member count afterwards.
fn admitted(t: &mut [u32], at: usize, k: usize, j: u32, p: u32) -> u32
    requires { Admits t.old at k j p }
    ensures { (result ≡ length (joined j p (table_of t.old)).members) × (t.new ≡ written (joined j p (table_of t.old)) t.old) }
{
    let m = joiner(t, k, j, p);
    records::insert_at(t, at, m);
    t[words::COUNT]
}

// j joins by p: the member count afterwards, or 1, 2, 3, 4, 13 or 5 with the table unchanged.
pub fn join(t: &mut [u32], j: u32, p: u32) -> Result<u32, Refusal>
    ensures { (answer_of result ≡ join_answer t.old j p) × (t.new ≡ join_words t.old j p) }
{
    let (at, k) = judged(t, j, p)?;
    Ok(admitted(t, at, k, j, p))
}
