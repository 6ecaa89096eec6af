// Settle: one round, rounds until the table is ideal, and rounds at the open minutes of a list. That the table is well-formed and sound is tested once, before the
// first round: a round keeps it so.
#![tactic(auto)]

ghost use Rattle.std.specs.Prelude.{◌≡◌, false, length, if◌then◌else◌, Some, None};
ghost use Rattle.model.specs.Table.{table_of, members_in};
ghost use Rattle.model.specs.Ring.{sound, verdict, passed_by_all};
ghost use Rattle.model.specs.Settle.{after_round, after_settle, settle_reply};
ghost use Rattle.model.specs.Windows.{windows_in, is_open, of_week, after_settle_at, settle_at_reply};
ghost use Rattle.model.specs.Refusals.{bad_windows, bad_minutes, settle_refusal, settle_at_refusal};
ghost use Rattle.model.specs.Calls.{written, round_answer, round_words, settle_answer, settle_words, settle_at_answer, settle_at_words};
ghost use Rattle.table.specs.FormedWords.{FormedWords};
ghost use Rattle.theory.specs.Runs.{Good};
ghost use Rattle.answers.specs.Judged.{Judges};
ghost use Rattle.answers.specs.Verdict.{number_of};
ghost use Rattle.answers.specs.RoundVerdict.{answer_of as verdict_answer};
ghost use Rattle.answers.specs.Settled.{values_of, answer_of};

use answers::refusal::Refusal;
use answers::report::Verdict;
use answers::settled::Settled;

// What the members of a well-formed table pass over, where it is sound. Each list is searched once, for the sum and for the test of soundness.
// An option, which comes back in registers: a `Result` of a `Refusal` takes stack here and where it is called.
fn passed_if_sound(t: &[u32]) -> Option<u32>
    requires { FormedWords t.now }
    ensures { result ≡ (if sound (table_of t.now) then Some (passed_by_all (members_in t.now)) else None) }
{
    let mut best = [0; 256];
    let passed = best_successors::fill_best(t, &mut best);
    let count = principal::count_principals(t);
    if !verdict::is_sound(t, &best, count) {
        return None;
    }
    Some(passed)
}

// What the members pass over, or 1 or 14.
fn begun_of(t: &[u32]) -> Result<u32, Refusal>
    ensures { Judges (settle_refusal t.now) (passed_by_all (members_in t.now)) result }
{
    if table::well_formed(t) {
        return passed_if_sound(t).ok_or(Refusal::NotSound);
    }
    Err(Refusal::NotWellFormed)
}

// The same with windows and minutes: what the members pass over, or 1, 15, 16 or 14.
fn begun_at(t: &[u32], ws: &[u32], ts: &[u32]) -> Result<u32, Refusal>
    ensures { Judges (settle_at_refusal t.now ws.now ts.now) (passed_by_all (members_in t.now)) result }
{
    if !table::well_formed(t) {
        return Err(Refusal::NotWellFormed);
    }
    if !windows::are_windows(ws) {
        return Err(Refusal::BadWindows);
    }
    if !windows::are_minutes(ts) {
        return Err(Refusal::BadMinutes);
    }
    passed_if_sound(t).ok_or(Refusal::NotSound)
}

// The verdict on a sound table.
fn verdict_now(t: &[u32]) -> Verdict
    requires { Good t.now }
    ensures { number_of result ≡ verdict (table_of t.now) }
{
    if ideal::is_ideal(t) {
        return Verdict::Ideal;
    }
    Verdict::Sound
}

// A round of a sound table, and the verdict after it.
fn round_of(t: &mut [u32]) -> Verdict
    requires { Good t.old }
    ensures { (number_of result ≡ verdict (after_round (table_of t.old))) × (t.new ≡ written (after_round (table_of t.old)) t.old) }
{
    turns::run_round(t);
    verdict_now(t)
}

// Rounds of a sound table until it is ideal, or until so many have run. Its members pass over so many entries as it begins.
fn rounds_of(t: &mut [u32], limit: u32, passed: u32) -> Settled
    requires good { Good t.old }
    requires passed_value { passed ≡ passed_by_all (members_in t.old) }
    ensures { (values_of result ≡ settle_reply limit (table_of t.old)) × (t.new ≡ written (after_settle limit (table_of t.old)) t.old) }
{
    let mut verdict = verdict_now(t);
    for rounds in 0..limit {
        if verdict == Verdict::Ideal {
            return Settled {
                rounds,
                verdict,
                passed,
            };
        }
        verdict = round_of(t);
    }
    Settled {
        rounds: limit,
        verdict,
        passed,
    }
}

// Is a round due at the minute, counted on in later weeks?
fn is_due(w: &[u32; 32], minute: u32) -> bool
    requires { length w.now ≡ 32 }
    ensures { result ≡ is_open (windows_in w.now) (of_week minute) }
{
    windows::is_open_at(w, minute % windows::WEEK)
}

// A round of a sound table at each open minute, in list order, until it is ideal. Its members pass over so many entries as it begins.
fn rounds_at(t: &mut [u32], ws: &[u32], ts: &[u32], passed: u32) -> Settled
    requires good { Good t.old }
    requires passed_value { passed ≡ passed_by_all (members_in t.old) }
    requires ws_value { bad_windows ws.now ≡ false }
    requires ts_value { bad_minutes ts.now ≡ false }
    ensures { (values_of result ≡ settle_at_reply (windows_in ws.now) ts.now (table_of t.old)) × (t.new ≡ written (after_settle_at (windows_in ws.now) ts.now (table_of t.old)) t.old) }
{
    let w = windows::padded(ws);
    let mut rounds = 0;
    let mut told = verdict_now(t);
    for &minute in ts {
        if told == Verdict::Ideal {
            return Settled {
                rounds,
                verdict: told,
                passed,
            };
        }
        if is_due(&w, minute) {
            told = round_of(t);
            rounds += 1;
        }
    }
    Settled {
        rounds,
        verdict: told,
        passed,
    }
}

// One round: the verdict after it, or 1 or 14 with the table unchanged.
pub fn round(t: &mut [u32]) -> Result<Verdict, Refusal>
    ensures { (verdict_answer result ≡ round_answer t.old) × (t.new ≡ round_words t.old) }
{
    begun_of(t)?;
    Ok(round_of(t))
}

// Rounds until the table is ideal, at most so many: the rounds run, the verdict and the entries passed over as it began; or 1 or 14 with the table unchanged.
pub fn settle(t: &mut [u32], limit: u32) -> Result<Settled, Refusal>
    ensures { (answer_of result ≡ settle_answer t.old limit) × (t.new ≡ settle_words t.old limit) }
{
    let passed = begun_of(t)?;
    Ok(rounds_of(t, limit, passed))
}

// Rounds at the open minutes of a list until the table is ideal: the rounds run, the verdict and the entries passed over as it began; or 1, 15, 16 or 14 with
// the table unchanged.
pub fn settle_at(t: &mut [u32], ws: &[u32], ts: &[u32]) -> Result<Settled, Refusal>
    ensures { (answer_of result ≡ settle_at_answer t.old ws.now ts.now) × (t.new ≡ settle_at_words t.old ws.now ts.now) }
{
    let passed = begun_at(t, ws, ts)?;
    Ok(rounds_at(t, ws, ts, passed))
}
