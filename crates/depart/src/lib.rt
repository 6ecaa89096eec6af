// Loss and withdrawal: a member's record goes.
#![tactic(auto)]

ghost use Rattle.std.specs.Prelude.{◌≡◌, [], ◌∷◌, ◌+◌, ◌*◌, ◌<◌, length, get_or, take};
ghost use Rattle.model.specs.Table.{header_size, record_size, size, table_of, members_in, ids};
ghost use Rattle.model.specs.Steps.{without};
ghost use Rattle.model.specs.Answer.{first_of, ◌when◌};
ghost use Rattle.model.specs.Refusals.{cuts_off, too_few_principals, leave_refusal};
ghost use Rattle.model.specs.Calls.{written_freed, fail_answer, fail_words, leave_answer, leave_words};
ghost use Rattle.table.specs.FormedWords.{FormedWords};
ghost use Rattle.answers.specs.Judged.{Judges};
ghost use Rattle.answers.specs.Count.{answer_of};

use answers::refusal::Refusal;

// The words of the table, copied: a withdrawal is tried on them first.
fn copy_table(a: &mut [u32; words::LONGEST], t: &[u32])
    requires formed_words { FormedWords t.now }
    requires a_len { length a.old ≡ header_size + 256 * record_size 8 }
    ensures { (take (size (table_of t.now)) a.new ≡ take (size (table_of t.now)) t.now) × (length a.new ≡ header_size + 256 * record_size 8) }
{
    let r = t[words::R] as usize;
    let n = t[words::COUNT] as usize;
    let end = words::offset(r, n);
    a[..end].copy_from_slice(&t[..end]);
}

// May a withdrawal leave this table? Or 6 or 7.
fn left(t: &[u32]) -> Result<(), Refusal>
    requires { FormedWords t.now }
    ensures { Judges (first_of ((6 when cuts_off (table_of t.now)) ∷ (7 when too_few_principals (table_of t.now)) ∷ [])) tt result }
{
    let r = t[words::R] as usize;
    let mut best = [0; 256];
    best_successors::fill_best(t, &mut best);
    if !best_successors::all_live(t, &best) {
        return Err(Refusal::CutsOff);
    }
    if principal::count_principals(t) <= r {
        return Err(Refusal::TooFewPrincipals);
    }
    Ok(())
}

// May the member at place k leave, judged on the table as it would be afterwards? Or 6 or 7.
fn judged(t: &[u32], k: usize) -> Result<(), Refusal>
    requires formed_words { FormedWords t.now }
    requires k_bound { k < get_or t.now 1 0 }
    ensures { Judges (leave_refusal t.now (get_or (ids (members_in t.now)) k 0)) tt result }
{
    let mut a = [0u32; words::LONGEST];
    copy_table(&mut a, t);
    records::remove_at(&mut a, k);
    left(&a)
}

// The record at place k goes: the member count afterwards.
fn gone(t: &mut [u32], k: usize) -> u32
    requires formed_words { FormedWords t.old }
    requires k_bound { k < get_or t.old 1 0 }
    ensures { (result ≡ length (without (get_or (ids (members_in t.old)) k 0) (table_of t.old)).members)
        × (t.new ≡ written_freed (without (get_or (ids (members_in t.old)) k 0) (table_of t.old)) t.old) }
{
    records::remove_at(t, k);
    t[words::COUNT]
}

// The member at place k leaves, if it may.
fn leave_at(t: &mut [u32], k: usize) -> Result<u32, Refusal>
    requires formed_words { FormedWords t.old }
    requires k_bound { k < get_or t.old 1 0 }
    ensures { (answer_of result ≡ leave_answer t.old (get_or (ids (members_in t.old)) k 0))
        × (t.new ≡ leave_words t.old (get_or (ids (members_in t.old)) k 0)) }
{
    judged(t, k)?;
    Ok(gone(t, k))
}

// Loss of n: the member count afterwards, or 1 or 3 with the table unchanged.
pub fn fail(t: &mut [u32], n: u32) -> Result<u32, Refusal>
    ensures { (answer_of result ≡ fail_answer t.old n) × (t.new ≡ fail_words t.old n) }
{
    let k = standing::standing_of(t, n)?;
    Ok(gone(t, k))
}

// Withdrawal of n: the member count afterwards, or 1, 3, 6 or 7 with the table unchanged.
pub fn leave(t: &mut [u32], n: u32) -> Result<u32, Refusal>
    ensures { (answer_of result ≡ leave_answer t.old n) × (t.new ≡ leave_words t.old n) }
{
    let k = standing::standing_of(t, n)?;
    leave_at(t, k)
}
