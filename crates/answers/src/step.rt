// What a stabilize step answers.
ghost use Rattle.answers.specs.Step.{values_of, values_one_to_one};

use crate::{Answer, Reply};

// What the step did.
#[derive(Clone, Copy, PartialEq, Eq)]
pub enum Step {
    // a dead head was dropped
    Again,
    // a candidate is to be looked at
    Look(u32),
    // the shelf to be notified
    Done(u32),
}

impl Reply for Step {
    ghost values_of = { values_of };

    fn numbers(self) -> Answer {
        match self {
            Step::Again => crate::accepted(&[0]),
            Step::Look(c) => crate::accepted(&[1, c]),
            Step::Done(h) => crate::accepted(&[2, h]),
        }
    }

    ghost one_to_one = { values_one_to_one };
}
