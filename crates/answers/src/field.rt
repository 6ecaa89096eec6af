// What reading one field of an image answers.
ghost use Rattle.answers.specs.Field.{values_of, values_one_to_one};

use crate::{Answer, Reply};

// The field at a position: its tag, start and length of its contents, and the next position.
#[derive(Clone, Copy, PartialEq, Eq)]
pub struct Field {
    pub tag: u32,
    pub start: u32,
    pub size: u32,
    pub next: u32,
}

impl Reply for Field {
    ghost values_of = { values_of };

    fn numbers(self) -> Answer {
        crate::accepted(&[self.tag, self.start, self.size, self.next])
    }

    ghost one_to_one = { values_one_to_one };
}
