// Alike: two tables that are equal but for their step counts.
#![tactic(auto)]

ghost use Rattle.std.specs.Prelude.{◌≡◌, ◌*◌, ◌≤◌, length, take};
ghost use Rattle.model.specs.Lists.{same, same_by};
ghost use Rattle.model.specs.Table.{record_size, member_of, members_of, table_of};
ghost use Rattle.model.specs.Alike.{alike_member, alike as alikeOf};
ghost use Rattle.model.specs.Calls.{alike_answer};
ghost use Rattle.table.specs.FormedWords.{FormedWords};
ghost use Rattle.answers.specs.YesNo.{answer_of};

use answers::refusal::Refusal;

// Are the first four words equal? All of them are looked at, so that four can be compared at once.
fn four_same(u: &[u32], v: &[u32]) -> bool
    requires { (4 ≤ length u.now) × (4 ≤ length v.now) }
    ensures { result ≡ same (take 4 u.now) (take 4 v.now) }
{
    (u[0] == v[0]) & (u[1] == v[1]) & (u[2] == v[2]) & (u[3] == v[3])
}

// How many words are compared at once.
const AT_ONCE: usize = 4;

// Are the records that the two parts hold equal but for their step counts? The first four words, the four just before the count, and, of lists of more than
// four, the list's first four: these are all words but the count, some of them twice.
fn record_alike(u: &[u32], v: &[u32], r: usize) -> bool
    requires { (r ≤ 8) × (record_size r ≤ length u.now) × (record_size r ≤ length v.now) }
    ensures { result ≡ alike_member (member_of r u.now) (member_of r v.now) }
{
    if !four_same(u, v) {
        return false;
    }
    if AT_ONCE < r {
        if !four_same(&u[words::LIST..], &v[words::LIST..]) {
            return false;
        }
    }
    four_same(&u[r..], &v[r..])
}

// Are the n records at the front of each equal but for their step counts?
fn records_alike(us: &[u32], vs: &[u32], r: usize, n: usize) -> bool
    requires { (r ≤ 8) × (n * record_size r ≤ length us.now) × (n * record_size r ≤ length vs.now) }
    ensures { result ≡ same_by alike_member (members_of r n us.now) (members_of r n vs.now) }
{
    let w = words::record_size(r);
    let pairs = us[..n * w].chunks_exact(w).zip(vs[..n * w].chunks_exact(w));
    for (u, v) in pairs {
        if !record_alike(u, v, r) {
            return false;
        }
    }
    true
}

// Are two well-formed tables equal but for their step counts?
fn tables_alike(us: &[u32], vs: &[u32]) -> bool
    requires formed_words { FormedWords us.now }
    requires formed_words_2 { FormedWords vs.now }
    ensures { result ≡ alikeOf (table_of us.now) (table_of vs.now) }
{
    let r = us[words::R];
    let s = vs[words::R];
    if r != s {
        return false;
    }
    let n = us[words::COUNT];
    let m = vs[words::COUNT];
    if n != m {
        return false;
    }
    records_alike(
        words::records_of(us),
        words::records_of(vs),
        r as usize,
        n as usize,
    )
}

// Are the tables alike: yes or no, or 1 if either is not well-formed.
pub fn alike(us: &[u32], vs: &[u32]) -> Result<bool, Refusal>
    ensures { answer_of result ≡ alike_answer us.now vs.now }
{
    if !table::well_formed(us) || !table::well_formed(vs) {
        return Err(Refusal::NotWellFormed);
    }
    Ok(tables_alike(us, vs))
}
