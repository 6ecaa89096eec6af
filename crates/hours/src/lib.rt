// Service hours: whether a minute of the week is open, and the first open minute at or after it, going round. Each goes over the windows once, judges them on the
// way and does not end early, so that several windows are looked at together.
#![tactic(auto)]

ghost use Rattle.std.specs.Prelude.{◌≡◌, ◌<◌};
ghost use Rattle.model.specs.Windows.{window, week};
ghost use Rattle.model.specs.Calls.{is_open_answer, next_open_answer};
ghost use Rattle.answers.specs.YesNo.{answer_of as yesNoOf};
ghost use Rattle.answers.specs.Opening.{answer_of as openingOf};
ghost use Rattle.hours.specs.Ahead.{ahead_of, may_ask};

use answers::refusal::Refusal;

// The minutes from the minute m of the week to the first one that the window holds, going round.
#[tactic(auto, unfolding(crate::specs::Ahead::ahead_of))]
fn ahead_of(start: u32, end: u32, m: u32) -> u32
    requires { m < week }
    ensures { result ≡ ahead_of m (window start end) }
{
    if windows::holds(start, end, m) {
        0
    } else if m <= start {
        start - m
    } else {
        start + windows::WEEK - m
    }
}

// Is m a minute of the week, and may so many words say windows?
fn may_ask(n: usize, m: u32) -> bool
    ensures { result ≡ may_ask n m }
{
    m < windows::WEEK && n <= windows::MOST_WORDS && n % 2 == 0
}

// Is the minute m of the week open? Or 15. `&=` asks both sides always: `&&` would end early.
pub fn is_open(ws: &[u32], m: u32) -> Result<bool, Refusal>
    ensures { yesNoOf result ≡ is_open_answer ws.now m }
{
    if !may_ask(ws.len(), m) {
        return Err(Refusal::BadWindows);
    }
    let (pairs, _) = ws.as_chunks::<2>();
    let mut right = true;
    let mut found = false;
    for &[start, end] in pairs {
        right &= windows::is_window(start, end);
        found |= windows::holds(start, end, m);
    }
    if right {
        Ok(found)
    } else {
        Err(Refusal::BadWindows)
    }
}

// The first open minute at or after the minute m of the week, going round, or that there is none. Or 15.
pub fn next_open(ws: &[u32], m: u32) -> Result<Option<u32>, Refusal>
    ensures { openingOf result ≡ next_open_answer ws.now m }
{
    if !may_ask(ws.len(), m) {
        return Err(Refusal::BadWindows);
    }
    let (pairs, _) = ws.as_chunks::<2>();
    let mut right = true;
    let mut least = windows::WEEK;
    for &[start, end] in pairs {
        right &= windows::is_window(start, end);
        least = least.min(ahead_of(start, end, m));
    }
    if !right {
        Err(Refusal::BadWindows)
    } else if least < windows::WEEK {
        Ok(Some((m + least) % windows::WEEK))
    } else {
        Ok(None)
    }
}
