// A member's turn, and a round of turns, on a table known to be well-formed and sound: nothing is tested again. For the crates above.
#![tactic(auto)]

ghost use Rattle.std.specs.Prelude.{◌≡◌, suc, ◌<◌, get_or, if◌then◌else◌};
ghost use Rattle.model.specs.Table.{table_of, members_in, ids};
ghost use Rattle.model.specs.Ring.{is_pending, nobody};
ghost use Rattle.model.specs.Steps.{stabilized};
ghost use Rattle.model.specs.Settle.{delivered, is_done, last_step, finished, until_done, after_turn, after_round};
ghost use Rattle.model.specs.Calls.{written};
ghost use Rattle.theory.specs.Runs.{Good};
ghost use Rattle.table.specs.FormedWords.{FormedWords};
ghost use Rattle.table.specs.Located.{Stands};

use answers::step::Step;

// The notice of q is delivered to h, which rectifies; a notice to a non-member is lost.
fn deliver(t: &mut [u32], h: u32, q: u32)
    requires { FormedWords t.old }
    ensures { t.new ≡ written (delivered q h (table_of t.old)) t.old }
{
    if let Ok(k) = table::locate(t, h) {
        rectify_at::rectify_at(t, k, q);
    }
}

// One step of the member n, which stands at place k, and its notice if it says "done": does it?
fn step(t: &mut [u32], k: usize, n: u32) -> bool
    requires good { Good t.old }
    requires stands { Stands t.old k n }
    ensures { (result ≡ is_done n (table_of t.old))
        × (t.new ≡ written (if is_done n (table_of t.old) then last_step n (table_of t.old)
        else stabilized n (table_of t.old)) t.old) }
{
    let Step::Done(h) = stabilize_at::stabilize_at(t, k) else {
        return false;
    };
    deliver(t, h, n);
    true
}

// Has the member at place k a pending candidate?
fn is_pending(t: &[u32], k: usize) -> bool
    requires formed_words { FormedWords t.now }
    requires k_bound { k < get_or t.now 1 0 }
    ensures { result ≡ is_pending (get_or (members_in t.now) k nobody) }
{
    table::word_at(t, k, words::PENDING) == 1
}

// A pending step of the member n, which stands at place k, is finished, and its notice delivered.
fn finish_pending(t: &mut [u32], k: usize, n: u32)
    requires good { Good t.old }
    requires stands { Stands t.old k n }
    ensures { t.new ≡ written (finished n (table_of t.old)) t.old }
{
    if is_pending(t, k) {
        step(t, k, n);
    }
}

// Steps of the member n, which stands at place k, until one says "done": of r + 1 one does.
fn until_done(t: &mut [u32], k: usize, n: u32)
    requires good { Good t.old }
    requires stands { Stands t.old k n }
    ensures { t.new ≡ written (until_done (suc (table_of t.old).r) n (table_of t.old)) t.old }
{
    for _taken in 0..t[words::R] as usize + 1 {
        if step(t, k, n) {
            return;
        }
    }
}

// The turn of the member at place k.
fn turn_at(t: &mut [u32], k: usize)
    requires good { Good t.old }
    requires k_bound { k < get_or t.old 1 0 }
    ensures { t.new ≡ written (after_turn (get_or (ids (members_in t.old)) k 0) (table_of t.old)) t.old }
{
    let n = table::word_at(t, k, words::ID);
    finish_pending(t, k, n);
    until_done(t, k, n);
}

// A round: the turn of each member, by rising identifier.
pub fn run_round(t: &mut [u32])
    requires { Good t.old }
    ensures { t.new ≡ written (after_round (table_of t.old)) t.old }
{
    for k in 0..t[words::COUNT] as usize {
        turn_at(t, k);
    }
}
