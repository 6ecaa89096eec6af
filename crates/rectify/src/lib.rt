// Rectify: a member takes a notice.
#![tactic(auto)]

ghost use Rattle.std.specs.Prelude.{◌≡◌};
ghost use Rattle.model.specs.Calls.{rectify_answer, rectify_words};
ghost use Rattle.answers.specs.Notice.{answer_of};

use answers::notice::Notice;
use answers::refusal::Refusal;

// n rectifies with a notice from q: new or same, or 1 or 3 with the table unchanged.
pub fn rectify(t: &mut [u32], n: u32, q: u32) -> Result<Notice, Refusal>
    ensures { (answer_of result ≡ rectify_answer t.old n q) × (t.new ≡ rectify_words t.old n q) }
{
    let k = standing::standing_of(t, n)?;
    Ok(rectify_at::rectify_at(t, k, q))
}
