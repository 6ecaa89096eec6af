// What a rectify step answers.
ghost use Rattle.answers.specs.Notice.{values_of, values_one_to_one};

use crate::{Answer, Reply};

// What became of the notice.
#[derive(Clone, Copy, PartialEq, Eq)]
pub enum Notice {
    // it was written
    New,
    // it was not
    Same,
}

impl Reply for Notice {
    ghost values_of = { values_of };

    fn numbers(self) -> Answer {
        match self {
            Notice::New => crate::accepted(&[1]),
            Notice::Same => crate::accepted(&[0]),
        }
    }

    ghost one_to_one = { values_one_to_one };
}
