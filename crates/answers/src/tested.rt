// What the principal test answers.
ghost use Rattle.answers.specs.Tested.{values_of, values_one_to_one};

use crate::{Answer, Reply};

// Principal or not, with the pairs taken: all of them for a principal, else up to the first that skips the member.
#[derive(Clone, Copy, PartialEq, Eq)]
pub struct Tested {
    pub principal: bool,
    pub pairs: u32,
}

impl Reply for Tested {
    ghost values_of = { values_of };

    fn numbers(self) -> Answer {
        crate::accepted(&[u32::from(self.principal), self.pairs])
    }

    ghost one_to_one = { values_one_to_one };
}
