// Refusals: why a call is declined, by the numbers of document 01 and those that document 02 adds.
ghost use Rattle.std.specs.Prelude.{◌≡◌};
ghost use Rattle.model.specs.Answer.{declined};
ghost use Rattle.answers.specs.Refusal.{number_of, refused, refused_one_to_one, declined_one_to_one};

use crate::{Answer, Decline};

#[derive(Clone, Copy, PartialEq, Eq)]
pub enum Refusal {
    // the slice holds no well-formed table
    NotWellFormed = 1,
    // the joiner is a member already
    AlreadyMember = 2,
    // no such member
    NotMember = 3,
    // the joiner does not lie between the member and its first entry
    NotBetween = 4,
    // no room for one more member
    Full = 5,
    // a list would be left without a live entry
    CutsOff = 6,
    // fewer than r + 1 principals would be left
    TooFewPrincipals = 7,
    // find stands at a member without a live entry, which its answer names (`found::NotFound`)
    NoLiveEntry = 8,
    // the bytes are no image
    NoImage = 9,
    // the slice lent for the result is too short
    TooShort = 10,
    // no table can be made of these
    NoNewTable = 11,
    // the keys do not rise
    NotRising = 12,
    // the first entry of the member joined by is no member
    DeadFirstEntry = 13,
    // the table is not sound
    NotSound = 14,
    // no right windows, or no minute of the week
    BadWindows = 15,
    // no right list of minutes
    BadMinutes = 16,
}

impl From<Refusal> for u32 {
    ghost from_gives = { λ refusal n. n ≡ number_of refusal };

    fn from(refusal: Refusal) -> u32 {
        refusal as u32
    }
}

impl Decline for Refusal {
    ghost refused_by = { refused };

    fn numbers(self) -> Answer {
        u32::from(self).numbers()
    }

    ghost one_to_one = { refused_one_to_one };
}

// Any number, as a refusal.
impl Decline for u32 {
    ghost refused_by = { declined };

    fn numbers(self) -> Answer {
        Answer {
            number: self,
            values: [0; 4],
            count: 0,
        }
    }

    ghost one_to_one = { declined_one_to_one };
}
