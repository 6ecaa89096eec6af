// A session of the rehearsal program, over lent slices.
#![tactic(auto)]

ghost use Rattle.std.specs.Prelude.{◌≡◌, ◌+◌, ◌*◌, ◌≤◌, length, take};
ghost use Rattle.script.specs.Lines.{counted as countedOf, lines};
ghost use Rattle.script.specs.Session.{text_from, words_from};
ghost use Rattle.put.specs.Wrote.{Wrote};
ghost use Rattle.rehearsal.specs.Outcomes.{outcome as outcomeOf, out_after, words_after, Within};

use put::Output;

// The slice for the output is too short.
#[derive(Clone, Copy, Debug, PartialEq, Eq)]
pub struct TooShort;

// All lines: what is printed for them.
fn run(s: &[u8], t: &mut [u32], out: &mut Output)
    requires { (length s.now ≤ 65536) × (out.old.at + 10 * length s.now + 10 ≤ length out.old.bytes.now) }
    ensures { (Wrote (text_from 1 t.old (lines s.now)) out.old out.new)
        × (t.new ≡ words_from t.old (lines s.now)) × (out.new.at ≤ length out.old.bytes.now) }
{
    let mut p = s;
    let mut n = 0;
    while !p.is_empty() {
        let (l, rest) = p.split_at(part::until(p, b'\n'));
        n += 1;
        run_line::run_line(l, n, t, out);
        p = rest.strip_prefix(b"\n").unwrap_or(rest);
    }
}

// How many bytes of the input count.
fn counted(s: &[u8]) -> usize
    ensures { (result ≤ length s.now) × (result ≤ 65536) × (result ≡ length (take result s.now)) × (take result s.now ≡ countedOf s.now) }
{
    s.len().min(65536)
}

// The session: the count of bytes written. Its output stands at the front of `out`, later bytes stay, and the table is as the session leaves it.
// Where `out` is shorter than ten bytes for each byte that counts, and ten more, nothing is changed.
pub fn session(input: &[u8], t: &mut [u32], out: &mut [u8]) -> Result<usize, TooShort>
    ensures { (result ≡ outcomeOf input.now t.old out.old)
        × (out.new ≡ out_after input.now t.old out.old)
        × (t.new ≡ words_after input.now t.old out.old) × (Within result out.new) }
{
    let n = counted(input);
    if out.len() < 10 * n + 10 {
        return Err(TooShort);
    }
    let mut o = Output::new(out);
    run(&input[..n], t, &mut o);
    Ok(o.at)
}
