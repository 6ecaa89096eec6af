// Windows of the week as words, start and end by turns, and lists of minutes: whether they are right, and whether a minute is open.
// For `hours` and `settle`; a caller of the library uses none of this.
#![tactic(auto)]

ghost use Rattle.std.specs.Prelude.{◌≡◌, ◌-◌, ◌≤◌, not, ◌++◌, length, replicate};
ghost use Rattle.model.specs.Windows.{window, windows_in, in_window, is_open};
ghost use Rattle.model.specs.Refusals.{right_window, bad_windows, bad_minutes};

// The minutes of a week.
pub const WEEK: u32 = 10080;

// The words of the most windows that there may be.
pub const MOST_WORDS: usize = 32;

// Every minute of a list is below it.
const MINUTES_END: u32 = 4294967295;

// Does the window hold the minute m of the week? Distances from its start go round, by 2^32: so one comparison tells, whether it runs over the week's end or not.
pub fn holds(start: u32, end: u32, m: u32) -> bool
    ensures { result ≡ in_window m (window start end) }
{
    m.wrapping_sub(start) < end.wrapping_sub(start)
}

// Is it a window between two different minutes of the week?
#[tactic(auto, unfolding(model::specs::Refusals::right_window))]
pub fn is_window(start: u32, end: u32) -> bool
    ensures { result ≡ right_window (window start end) }
{
    start != end && start < WEEK && end < WEEK
}

// Are all of the words windows, and not too many? Where not, it is 15.
pub fn are_windows(ws: &[u32]) -> bool
    ensures { result ≡ not (bad_windows ws.now) }
{
    let (pairs, odd) = ws.as_chunks::<2>();
    ws.len() <= MOST_WORDS
        && odd.is_empty()
        && pairs.iter().all(|&[start, end]| is_window(start, end))
}

// The words of windows, and zeros after them: the windows from 0 to 0 that these say hold no minute.
pub fn padded(ws: &[u32]) -> [u32; 32]
    requires { length ws.now ≤ 32 }
    ensures { result ≡ ws.now ++ replicate (32 - length ws.now) 0 }
{
    let mut w = [0; 32];
    w[..ws.len()].copy_from_slice(ws);
    w
}

// Is the minute m of the week open: does some window hold it? All of them are looked at, always equally many, so that several are at a time.
pub fn is_open_at(w: &[u32; 32], m: u32) -> bool
    requires { length w.now ≡ 32 }
    ensures { result ≡ is_open (windows_in w.now) m }
{
    let (pairs, _) = w.as_chunks::<2>();
    pairs
        .iter()
        .fold(false, |found, &[start, end]| found | holds(start, end, m))
}

// Do the minutes strictly rise, each below 4294967295? Where not, it is 16. If they rise, the last is the highest.
pub fn are_minutes(ts: &[u32]) -> bool
    ensures { result ≡ not (bad_minutes ts.now) }
{
    rising::is_rising(ts) && ts.last().is_none_or(|&t| t < MINUTES_END)
}
