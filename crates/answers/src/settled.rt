// What settle answers, with windows too.
ghost use Rattle.answers.specs.Settled.{values_of, values_one_to_one, ran_values, ran_one_to_one};

use crate::report::Verdict;
use crate::{Answer, Reply};

// The rounds run, the verdict afterwards, and the entries that all members of the table passed over as it began.
#[derive(Clone, Copy, PartialEq, Eq)]
pub struct Settled {
    pub rounds: u32,
    pub verdict: Verdict,
    pub passed: u32,
}

// The same in numbers alone, whatever number is given for the verdict.
#[derive(Clone, Copy, PartialEq, Eq)]
pub struct Ran {
    pub rounds: u32,
    pub verdict: u32,
    pub passed: u32,
}

impl Reply for Ran {
    ghost values_of = { ran_values };

    fn numbers(self) -> Answer {
        crate::accepted(&[self.rounds, self.verdict, self.passed])
    }

    ghost one_to_one = { ran_one_to_one };
}

impl Reply for Settled {
    ghost values_of = { values_of };

    fn numbers(self) -> Answer {
        let ran = Ran {
            rounds: self.rounds,
            verdict: u32::from(self.verdict),
            passed: self.passed,
        };
        ran.numbers()
    }

    ghost one_to_one = { values_one_to_one };
}
