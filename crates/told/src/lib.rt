// The fields of an accepted call, written to an output: its values, of which stabilize and rectify tell the first by a word.
#![tactic(auto)]

ghost use Rattle.std.specs.Prelude.{◌≡◌};
ghost use Rattle.script.specs.Text.{step_text, notice_text, fields_text};
ghost use Rattle.put.specs.Wrote.{Room, Wrote};

use put::Output;
use script::Word;

// The word that tells a stabilize step's reply.
fn step(k: u32) -> &'static [u8]
    ensures { result.now ≡ step_text k }
{
    match k {
        0 => b" again",
        1 => b" look",
        _ => b" done",
    }
}

// The word that tells a rectify step's reply.
fn notice(k: u32) -> &'static [u8]
    ensures { result.now ≡ notice_text k }
{
    match k {
        1 => b" new",
        _ => b" same",
    }
}

// The fields of an accepted call.
pub fn fields(out: &mut Output, w: Word, vs: &[u32])
    requires { Room (fields_text w vs.now) out.old }
    ensures { Wrote (fields_text w vs.now) out.old out.new }
{
    let Some((k, rest)) = vs.split_first() else {
        return;
    };
    let word = match w {
        Word::Stab => step(*k),
        Word::Rect => notice(*k),
        _ => return out.numbers(vs),
    };
    out.bytes(word);
    out.numbers(rest);
}
