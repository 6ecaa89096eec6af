// Edits of a well-formed table, by places: a record is put in, in place and out. For the crates above.
#![tactic(auto)]

ghost use Rattle.std.specs.Prelude.{◌≡◌, false, ◌+◌, ◌≤◌, ◌<◌, length, get_or};
ghost use Rattle.model.specs.Table.{record_size, size, members_in, table_of, ids};
ghost use Rattle.model.specs.Ring.{live};
ghost use Rattle.model.specs.Steps.{inserted, replaced, without, with_members};
ghost use Rattle.model.specs.Calls.{written, written_freed};
ghost use Rattle.member.specs.View.{view};
ghost use Rattle.table.specs.FormedWords.{FormedWords};
ghost use Rattle.table.specs.Rank.{rank as rank_of};
ghost use Rattle.table.specs.Located.{Stands};

use member::Member;

// The record of m among the others, at the place k where it is missing; the records above move up through the lent tail.
pub fn insert_at(t: &mut [u32], k: usize, m: Member)
    requires formed_words { FormedWords t.old }
    requires t_bound { (get_or t.old 1 0 < 256) × (size (table_of t.old) + record_size (get_or t.old 0 0) ≤ length t.old) }
    requires id_value { (live (members_in t.old) m.id ≡ false) × (k ≡ rank_of (ids (members_in t.old)) m.id) }
    ensures { t.new ≡ written (with_members (inserted (view (get_or t.old 0 0) m) (members_in t.old)) (table_of t.old)) t.old }
{
    let r = t[words::R] as usize;
    let n = t[words::COUNT] as usize;
    let at = words::offset(r, k);
    let end = words::offset(r, n);
    words::put_in(&mut t[at..], end - at, m, r);
    t[words::COUNT] = (n + 1) as u32;
}

// The record of m in the place k of the member that has its identifier.
pub fn replace_at(t: &mut [u32], k: usize, m: Member)
    requires formed_words { FormedWords t.old }
    requires stands { Stands t.old k m.id }
    ensures { t.new ≡ written (with_members (replaced (view (get_or t.old 0 0) m) (members_in t.old)) (table_of t.old)) t.old }
{
    let r = t[words::R] as usize;
    let at = words::offset(r, k);
    words::write_member(&mut t[at..], m, r);
}

// The record at the place k goes; those above move down, and the words freed become 0.
pub fn remove_at(t: &mut [u32], k: usize)
    requires formed_words { FormedWords t.old }
    requires k_bound { k < get_or t.old 1 0 }
    ensures { t.new ≡ written_freed (without (get_or (ids (members_in t.old)) k 0) (table_of t.old)) t.old }
{
    let r = t[words::R] as usize;
    let n = t[words::COUNT] as usize;
    let at = words::offset(r, k);
    let end = words::offset(r, n);
    let w = words::record_size(r);
    words::close_gap(&mut t[at..], end - at, w);
    t[words::COUNT] = (n - 1) as u32;
}
