// Answers: a call answers with a reply or with the refusal that declines it, a `Result`. A module a kind of reply; `numbers` gives any answer in numbers, as it
// crosses to C and stands in a session's text.
#![tactic(auto)]

ghost use Rattle.std.specs.Prelude.{◌≡◌, List, ℕ, ◌≤◌, length};
ghost use Rattle.model.specs.Answer.{Answer as AnswerOf, accepted};
ghost use Rattle.answers.specs.Packed.{Says, padded};
ghost use Rattle.answers.specs.ReadBack.{OneToOne};
ghost use Rattle.answers.specs.Answered.{answered};

pub mod count;
pub mod field;
pub mod found;
pub mod notice;
pub mod opening;
pub mod refusal;
pub mod report;
pub mod runs;
pub mod settled;
pub mod step;
pub mod tested;
pub mod yes_no;

// Number 0 or the refusal; the values as document 01 lists them, unused ones 0, and how many there are; 8 has its member in values[0].
#[repr(C)]
#[derive(Clone, Copy)]
pub struct Answer {
    pub number: u32,
    pub values: [u32; 4],
    pub count: u32,
}

// A kind of reply: its values in the documents' order, at most four, which tell it from every other reply of the kind.
pub trait Reply {
    ghost values_of: { Self → List ℕ };

    // The accepted answer in numbers.
    fn numbers(self) -> Answer
        ensures { Says result (accepted (values_of self)) };

    ghost one_to_one: { OneToOne values_of };
}

// A kind of refusal.
pub trait Decline {
    ghost refused_by: { Self → AnswerOf };

    // The answer that is declined, in numbers.
    fn numbers(self) -> Answer
        ensures { Says result (refused_by self) };

    ghost one_to_one: { OneToOne refused_by };
}

// Up to four values, the unused ones 0.
fn padded(vs: &[u32]) -> [u32; 4]
    requires { length vs.now ≤ 4 }
    ensures { result ≡ padded vs.now }
{
    let mut all = [0; 4];
    all[..vs.len()].copy_from_slice(vs);
    all
}

// An accepted answer of up to four values.
fn accepted(vs: &[u32]) -> Answer
    requires { length vs.now ≤ 4 }
    ensures { Says result (accepted vs.now) }
{
    Answer {
        number: 0,
        values: padded(vs),
        count: vs.len() as u32,
    }
}

// An answer in numbers.
pub fn numbers<R: Reply, E: Decline>(answer: Result<R, E>) -> Answer
    ensures { Says result (answered R.values_of E.refused_by answer) }
{
    match answer {
        Ok(reply) => reply.numbers(),
        Err(refusal) => refusal.numbers(),
    }
}
