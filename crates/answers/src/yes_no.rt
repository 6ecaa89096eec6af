// A question answered by yes or no: alike, and whether a minute is open.
ghost use Rattle.answers.specs.YesNo.{values_of, values_one_to_one};

use crate::{Answer, Reply};

impl Reply for bool {
    ghost values_of = { values_of };

    fn numbers(self) -> Answer {
        crate::accepted(&[u32::from(self)])
    }

    ghost one_to_one = { values_one_to_one };
}
