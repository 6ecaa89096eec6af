// What an audit answers, and the verdict, which a round answers alone.
ghost use Rattle.std.specs.Prelude.{◌≡◌};
ghost use Rattle.answers.specs.Verdict.{number_of};
ghost use Rattle.answers.specs.Report.{values_of, values_one_to_one, audited_values, audited_one_to_one};
ghost use Rattle.answers.specs.RoundVerdict.{values_of as verdict_values, values_one_to_one as verdicts_one_to_one};

use crate::{Answer, Reply};

// The verdict on a table.
#[derive(Clone, Copy, PartialEq, Eq)]
pub enum Verdict {
    // 0
    NotSound,
    // 1: sound, and not ideal
    Sound,
    // 2: sound and ideal
    Ideal,
}

// The audit of a table.
#[derive(Clone, Copy, PartialEq, Eq)]
pub struct Report {
    pub members: u32,
    pub principals: u32,
    pub ring_members: u32,
    pub verdict: Verdict,
}

// The same in numbers alone, whatever number is given for the verdict.
#[derive(Clone, Copy, PartialEq, Eq)]
pub struct Audited {
    pub members: u32,
    pub principals: u32,
    pub ring_members: u32,
    pub verdict: u32,
}

impl From<Verdict> for u32 {
    ghost from_gives = { λ verdict n. n ≡ number_of verdict };

    fn from(verdict: Verdict) -> u32 {
        match verdict {
            Verdict::NotSound => 0,
            Verdict::Sound => 1,
            Verdict::Ideal => 2,
        }
    }
}

impl Reply for Verdict {
    ghost values_of = { verdict_values };

    fn numbers(self) -> Answer {
        let verdict = u32::from(self);
        crate::accepted(&[verdict])
    }

    ghost one_to_one = { verdicts_one_to_one };
}

impl Reply for Audited {
    ghost values_of = { audited_values };

    fn numbers(self) -> Answer {
        crate::accepted(&[
            self.members,
            self.principals,
            self.ring_members,
            self.verdict,
        ])
    }

    ghost one_to_one = { audited_one_to_one };
}

impl Reply for Report {
    ghost values_of = { values_of };

    fn numbers(self) -> Answer {
        let audited = Audited {
            members: self.members,
            principals: self.principals,
            ring_members: self.ring_members,
            verdict: u32::from(self.verdict),
        };
        audited.numbers()
    }

    ghost one_to_one = { values_one_to_one };
}
