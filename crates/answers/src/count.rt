// How many: the members that a table has after join, loss, withdrawal, new and image reading; the bytes that image writing wrote.
ghost use Rattle.answers.specs.Packed.{Says};
ghost use Rattle.answers.specs.Count.{values_of, values_one_to_one};

use crate::{Answer, Reply};

impl Reply for u32 {
    ghost values_of = { values_of };

    fn numbers(self) -> Answer {
        crate::accepted(&[self])
    }

    ghost one_to_one = { values_one_to_one };
}
