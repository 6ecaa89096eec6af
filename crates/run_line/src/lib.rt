// One line of a session: its call, and what is printed for it.
#![tactic(auto)]

ghost use Rattle.std.specs.Prelude.{◌≡◌, true, ◌+◌, ◌*◌, ◌≤◌, length};
ghost use Rattle.answers.specs.Packed.{Says};
ghost use Rattle.script.specs.Lines.{takes, meaning};
ghost use Rattle.script.specs.Session.{call_named, word_answer, word_words, line_text, line_words};
ghost use Rattle.put.specs.Wrote.{Wrote};
ghost use Rattle.run_line.specs.Named.{named_of};

use answers::Answer;
use calls::Call;
use put::Output;
use script::Word;

// The call that a word with its numbers is; `new` is none of the seven.
fn call_of(w: Word, xs: &[u32]) -> Option<Call>
    requires { takes w (length xs.now) ≡ true }
    ensures { named_of result ≡ call_named w xs.now }
{
    match w {
        Word::New => None,
        Word::Join => Some(Call::Join(xs[0], xs[1])),
        Word::Stab => Some(Call::Stabilize(xs[0])),
        Word::Rect => Some(Call::Rectify(xs[0], xs[1])),
        Word::Out => Some(Call::Leave(xs[0])),
        Word::Drop => Some(Call::Fail(xs[0])),
        Word::Find => Some(Call::Lookup(xs[0], xs[1])),
        Word::Audit => Some(Call::Audit),
    }
}

// The call of a word with its numbers: its answer, and the table afterwards.
fn call(t: &mut [u32], w: Word, xs: &[u32]) -> Answer
    requires { takes w (length xs.now) ≡ true }
    ensures { Says result (word_answer t.old w xs.now) × (t.new ≡ word_words t.old w xs.now) }
{
    let Some(c) = call_of(w, xs) else {
        return answers::numbers(new_table::new(t, xs[0], &xs[1..]));
    };
    calls::apply(t, c)
}

// Line n: what is printed for it, and the table afterwards.
pub fn run_line(l: &[u8], n: u32, t: &mut [u32], out: &mut Output)
    requires { (n ≤ 65536) × (out.old.at + 10 * (length l.now + 1) ≤ length out.old.bytes.now) }
    ensures { (Wrote (line_text n t.old (meaning l.now)) out.old out.new)
        × (t.new ≡ line_words t.old (meaning l.now)) × (out.new.at ≤ out.old.at + 10 * (length l.now + 1)) }
{
    let mut xs = [0u32; 258];
    match line::read(l, &mut xs) {
        Some((w, k)) => {
            let a = call(t, w, &xs[..k]);
            text::answered(out, n, w, a);
        }
        None => text::unread(out, n),
    }
}
