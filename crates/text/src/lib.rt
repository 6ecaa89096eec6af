// The line that a session prints for a line of its input, written to an output.
#![tactic(auto)]

ghost use Rattle.std.specs.Prelude.{[], ◌∷◌, ◌++◌, ◌≤◌, length};
ghost use Rattle.answers.specs.Packed.{unpacked};
ghost use Rattle.script.specs.Text.{numbers_text, fields_text, answer_text, answered as answeredOf, unread as unreadOf};
ghost use Rattle.put.specs.Wrote.{Room, Wrote};
ghost use Rattle.text.specs.Words.{word_text};

use answers::Answer;
use put::Output;
use script::Word;

// A word, after a space.
fn word(out: &mut Output, w: Word)
    requires { Room (word_text w) out.old }
    ensures { Wrote (word_text w) out.old out.new }
{
    out.bytes(b" ");
    out.bytes(w.text());
}

// `ok` and fields.
fn ok(out: &mut Output, w: Word, vs: &[u32])
    requires { Room ((32 ∷ 111 ∷ 107 ∷ []) ++ fields_text w vs.now) out.old }
    ensures { Wrote ((32 ∷ 111 ∷ 107 ∷ []) ++ fields_text w vs.now) out.old out.new }
{
    out.bytes(b" ok");
    told::fields(out, w, vs);
}

// `no`, the number, and 8's member.
fn no(out: &mut Output, number: u32, vs: &[u32])
    requires { Room ((32 ∷ 110 ∷ 111 ∷ []) ++ numbers_text (number ∷ vs.now)) out.old }
    ensures { Wrote ((32 ∷ 110 ∷ 111 ∷ []) ++ numbers_text (number ∷ vs.now)) out.old out.new }
{
    out.bytes(b" no ");
    out.number(number);
    out.numbers(vs);
}

// The answer to the word w: `ok` and fields, or `no`, the number and 8's member.
fn answer(out: &mut Output, w: Word, a: Answer)
    requires { (a.count ≤ length a.values) × Room (answer_text w (unpacked a)) out.old }
    ensures { Wrote (answer_text w (unpacked a)) out.old out.new }
{
    let n = a.count as usize;
    let vs = &a.values[..n];
    if a.number == 0 {
        ok(out, w, vs);
    } else {
        no(out, a.number, vs);
    }
}

// The line that is printed for line n, which asked the word w.
pub fn answered(out: &mut Output, n: u32, w: Word, a: Answer)
    requires { (a.count ≤ length a.values) × Room (answeredOf n w (unpacked a)) out.old }
    ensures { Wrote (answeredOf n w (unpacked a)) out.old out.new }
{
    out.number(n);
    word(out, w);
    answer(out, w, a);
    out.bytes(b"\n");
}

// The line that is printed for line n, which cannot be read.
pub fn unread(out: &mut Output, n: u32)
    requires { Room (unreadOf n) out.old }
    ensures { Wrote (unreadOf n) out.old out.new }
{
    out.number(n);
    out.bytes(b" bad\n");
}
