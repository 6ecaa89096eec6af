// Stabilize: one step of a member.
#![tactic(auto)]

ghost use Rattle.std.specs.Prelude.{◌≡◌};
ghost use Rattle.model.specs.Calls.{stabilize_answer, stabilize_words};
ghost use Rattle.answers.specs.Step.{answer_of};

use answers::refusal::Refusal;
use answers::step::Step;

// One stabilize step of n: again, look or done, or 1 or 3 with the table unchanged.
pub fn stabilize(t: &mut [u32], n: u32) -> Result<Step, Refusal>
    ensures { (answer_of result ≡ stabilize_answer t.old n) × (t.new ≡ stabilize_words t.old n) }
{
    let k = standing::standing_of(t, n)?;
    Ok(stabilize_at::stabilize_at(t, k))
}
