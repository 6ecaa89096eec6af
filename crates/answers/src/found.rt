// What find answers.
ghost use Rattle.std.specs.Prelude.{◌≡◌};
ghost use Rattle.answers.specs.declared.found.NotFound.TheVariants.{Declined};
ghost use Rattle.answers.specs.Found.{values_of, values_one_to_one, refused_by, refused_one_to_one};

use crate::refusal::Refusal;
use crate::{Answer, Decline, Reply};

// The owner of the key, the member it was found at, the moves, and the entries passed over.
#[derive(Clone, Copy, PartialEq, Eq)]
pub struct Found {
    pub owner: u32,
    pub at: u32,
    pub moves: u32,
    pub passed: u32,
}

impl Reply for Found {
    ghost values_of = { values_of };

    fn numbers(self) -> Answer {
        crate::accepted(&[self.owner, self.at, self.moves, self.passed])
    }

    ghost one_to_one = { values_one_to_one };
}

// Why no owner was found.
#[derive(Clone, Copy, PartialEq, Eq)]
pub enum NotFound {
    // 8: find stands at a member, which this names, without a live entry
    Stuck(u32),
    // any other number
    Declined(Refusal),
}

impl From<Refusal> for NotFound {
    ghost from_gives = { λ refusal e. e ≡ Declined refusal };

    fn from(refusal: Refusal) -> NotFound {
        NotFound::Declined(refusal)
    }
}

impl Decline for NotFound {
    ghost refused_by = { refused_by };

    fn numbers(self) -> Answer {
        match self {
            NotFound::Stuck(q) => Answer {
                number: 8,
                values: [q, 0, 0, 0],
                count: 1,
            },
            NotFound::Declined(refusal) => refusal.numbers(),
        }
    }

    ghost one_to_one = { refused_one_to_one };
}
