// What the question for the next open minute answers: the minute of the week, or that there is none.
ghost use Rattle.answers.specs.Opening.{values_of, values_one_to_one};

use crate::{Answer, Reply};

impl Reply for Option<u32> {
    ghost values_of = { values_of };

    fn numbers(self) -> Answer {
        match self {
            Some(m) => crate::accepted(&[1, m]),
            None => crate::accepted(&[0]),
        }
    }

    ghost one_to_one = { values_one_to_one };
}
