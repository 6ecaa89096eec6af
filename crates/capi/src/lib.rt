// The library for C: thin exports over the proved calls. include/ring.h declares them.
#![tactic(auto)]

ghost use Rattle.std.specs.Prelude.{◌≡◌};
ghost use Rattle.model.specs.Calls.{join_answer, join_words, stabilize_answer, stabilize_words, rectify_answer, rectify_words, fail_answer, fail_words, leave_answer, leave_words, lookup_answer, audit_answer, new_answer, new_words, alike_answer, write_answer, write_bytes, read_answer, read_words, findings_answer, findings_after, held_answer, principal_answer, round_answer, round_words, settle_answer, settle_words, is_open_answer, next_open_answer, settle_at_answer, settle_at_words};
ghost use Rattle.model.specs.Image.{field_at};
ghost use Rattle.finding.specs.View.{views};
ghost use Rattle.answers.specs.Packed.{packed};
ghost use Rattle.answers.specs.Runs.{packed as packedRuns};
ghost use Rattle.capi.specs.TakeOver.{take_over_answer};

use answers::Answer;
use answers::runs::RunsAnswer;
use finding::Finding;

// Join j by p.
#[unsafe(no_mangle)]
pub extern "C" fn ring_join(table: &mut [u32], j: u32, p: u32) -> Answer
    ensures { (result ≡ packed (join_answer table.old j p)) × (table.new ≡ join_words table.old j p) }
{
    answers::numbers(join::join(table, j, p))
}

// One stabilize step of n.
#[unsafe(no_mangle)]
pub extern "C" fn ring_stabilize(table: &mut [u32], n: u32) -> Answer
    ensures { (result ≡ packed (stabilize_answer table.old n)) × (table.new ≡ stabilize_words table.old n) }
{
    answers::numbers(stabilize::stabilize(table, n))
}

// n rectifies with a notice from q.
#[unsafe(no_mangle)]
pub extern "C" fn ring_rectify(table: &mut [u32], n: u32, q: u32) -> Answer
    ensures { (result ≡ packed (rectify_answer table.old n q)) × (table.new ≡ rectify_words table.old n q) }
{
    answers::numbers(rectify::rectify(table, n, q))
}

// Loss of n.
#[unsafe(no_mangle)]
pub extern "C" fn ring_fail(table: &mut [u32], n: u32) -> Answer
    ensures { (result ≡ packed (fail_answer table.old n)) × (table.new ≡ fail_words table.old n) }
{
    answers::numbers(depart::fail(table, n))
}

// Withdrawal of n.
#[unsafe(no_mangle)]
pub extern "C" fn ring_leave(table: &mut [u32], n: u32) -> Answer
    ensures { (result ≡ packed (leave_answer table.old n)) × (table.new ≡ leave_words table.old n) }
{
    answers::numbers(depart::leave(table, n))
}

// Find key k from the member n.
#[unsafe(no_mangle)]
pub extern "C" fn ring_lookup(table: &[u32], n: u32, k: u32) -> Answer
    ensures { result ≡ packed (lookup_answer table.now n k) }
{
    answers::numbers(lookup::lookup(table, n, k))
}

// Audit.
#[unsafe(no_mangle)]
pub extern "C" fn ring_audit(table: &[u32]) -> Answer
    ensures { result ≡ packed (audit_answer table.now) }
{
    answers::numbers(audit::audit(table))
}

// The new table of r and rising identifiers.
#[unsafe(no_mangle)]
pub extern "C" fn ring_new(table: &mut [u32], r: u32, ids: &[u32]) -> Answer
    ensures { (result ≡ packed (new_answer table.old r ids.now)) × (table.new ≡ new_words table.old r ids.now) }
{
    answers::numbers(new_table::new(table, r, ids))
}

// Are two tables alike?
#[unsafe(no_mangle)]
pub extern "C" fn ring_alike(a: &[u32], b: &[u32]) -> Answer
    ensures { result ≡ packed (alike_answer a.now b.now) }
{
    answers::numbers(alike::alike(a, b))
}

// Which of two replies' lists to take over: 1 for c's and 0 for h's, and the length of its part.
#[unsafe(no_mangle)]
pub extern "C" fn ring_take_over<'a>(
    own: u32,
    h: u32,
    c: u32,
    hs: &'a [u32],
    cs: &'a [u32],
) -> Answer
    ensures { result ≡ packed (take_over_answer own h c hs.now cs.now) }
{
    let chosen = take_over::chooses_candidate(own, h, c, cs);
    let n = take_over::take_over(own, h, c, hs, cs).len();
    Answer {
        number: 0,
        values: [
            u32::from(chosen),
            (n % 4294967296) as u32,
            (n / 4294967296) as u32,
            0,
        ],
        count: 3,
    }
}

// Writes the image of a table.
#[unsafe(no_mangle)]
pub extern "C" fn ring_image_write(table: &[u32], image: &mut [u8]) -> Answer
    ensures { (result ≡ packed (write_answer table.now image.old)) × (image.new ≡ write_bytes table.now image.old) }
{
    answers::numbers(image::write(table, image))
}

// Reads a whole image into a slice.
#[unsafe(no_mangle)]
pub extern "C" fn ring_image_read(table: &mut [u32], image: &[u8]) -> Answer
    ensures { (result ≡ packed (read_answer table.old image.now)) × (table.new ≡ read_words table.old image.now) }
{
    answers::numbers(image::read(table, image))
}

// The field at a position of an image.
#[unsafe(no_mangle)]
pub extern "C" fn ring_image_field(image: &[u8], position: usize) -> Answer
    ensures { result ≡ packed (field_at image.now position) }
{
    answers::numbers(due::field_at(image, position))
}

// The audit, with one finding a member.
#[unsafe(no_mangle)]
pub extern "C" fn ring_findings(table: &[u32], out: &mut [Finding]) -> Answer
    ensures { (result ≡ packed (findings_answer table.now (views out.old))) × (views out.new ≡ findings_after table.now (views out.old)) }
{
    answers::numbers(findings::findings(table, out))
}

// The runs of the keys that the member n holds.
#[unsafe(no_mangle)]
pub extern "C" fn ring_held(table: &[u32], n: u32, keys: &[u32]) -> RunsAnswer
    ensures { result ≡ packedRuns (held_answer table.now n keys.now) }
{
    answers::runs::numbers(held::held(table, n, keys))
}

// Is the member n a principal, and how many pairs did the test take?
#[unsafe(no_mangle)]
pub extern "C" fn ring_principal(table: &[u32], n: u32) -> Answer
    ensures { result ≡ packed (principal_answer table.now n) }
{
    answers::numbers(principal_test::principal_test(table, n))
}

// One round: the turn of each member.
#[unsafe(no_mangle)]
pub extern "C" fn ring_round(table: &mut [u32]) -> Answer
    ensures { (result ≡ packed (round_answer table.old)) × (table.new ≡ round_words table.old) }
{
    answers::numbers(settle::round(table))
}

// Rounds until the table is ideal, at most so many.
#[unsafe(no_mangle)]
pub extern "C" fn ring_settle(table: &mut [u32], limit: u32) -> Answer
    ensures { (result ≡ packed (settle_answer table.old limit)) × (table.new ≡ settle_words table.old limit) }
{
    answers::numbers(settle::settle(table, limit))
}

// Is a minute of the week open?
#[unsafe(no_mangle)]
pub extern "C" fn ring_is_open(windows: &[u32], minute: u32) -> Answer
    ensures { result ≡ packed (is_open_answer windows.now minute) }
{
    answers::numbers(hours::is_open(windows, minute))
}

// The first open minute at or after a minute of the week, going round.
#[unsafe(no_mangle)]
pub extern "C" fn ring_next_open(windows: &[u32], minute: u32) -> Answer
    ensures { result ≡ packed (next_open_answer windows.now minute) }
{
    answers::numbers(hours::next_open(windows, minute))
}

// Rounds at the open minutes of a list until the table is ideal.
#[unsafe(no_mangle)]
pub extern "C" fn ring_settle_at(table: &mut [u32], windows: &[u32], minutes: &[u32]) -> Answer
    ensures { (result ≡ packed (settle_at_answer table.old windows.now minutes.now)) × (table.new ≡ settle_at_words table.old windows.now minutes.now) }
{
    answers::numbers(settle::settle_at(table, windows, minutes))
}
