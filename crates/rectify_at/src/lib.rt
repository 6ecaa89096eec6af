// The member at a place takes a notice, on a table known to be well-formed. For the crates above.
#![tactic(auto)]

ghost use Rattle.std.specs.Prelude.{◌≡◌, ◌<◌, get_or};
ghost use Rattle.model.specs.Table.{members_in, table_of, ids};
ghost use Rattle.model.specs.Ring.{named, nobody};
ghost use Rattle.model.specs.Steps.{renews, rectify_reply, rectified};
ghost use Rattle.model.specs.Calls.{written};
ghost use Rattle.table.specs.FormedWords.{FormedWords};
ghost use Rattle.answers.specs.Notice.{values_of};

use answers::notice::Notice;

// Does a notice from q change the predecessor of the member at place k? alive: the predecessor is a member.
fn renews_at(t: &[u32], k: usize, q: u32, alive: bool) -> bool
    requires formed_words { FormedWords t.now }
    requires k_bound { k < get_or t.now 1 0 }
    ensures { result ≡ renews alive q (get_or (members_in t.now) k nobody) }
{
    let old = table::word_at(t, k, words::PREDECESSOR);
    let n = table::word_at(t, k, words::ID);
    ident::between(old, q, n) || !alive
}

// The member at place k rectifies with a notice from q; a notice that changes nothing writes nothing.
pub fn rectify_at(t: &mut [u32], k: usize, q: u32) -> Notice
    requires formed_words { FormedWords t.old }
    requires k_bound { k < get_or t.old 1 0 }
    ensures { (values_of result ≡ rectify_reply (members_in t.old) q
        (named (members_in t.old) (get_or (ids (members_in t.old)) k 0)))
        × (t.new ≡ written (rectified (get_or (ids (members_in t.old)) k 0) q (table_of t.old)) t.old) }
{
    let p = table::word_at(t, k, words::PREDECESSOR);
    let alive = table::locate(t, p).is_ok();
    if !renews_at(t, k, q, alive) {
        return Notice::Same;
    }
    let m = table::member_at(t, k);
    records::replace_at(t, k, m.rectify(q, alive));
    Notice::New
}
