// The runs of keys that a member holds: what held answers. Positions are counts of keys, so they are of type usize.
ghost use Rattle.std.specs.Prelude.{◌≡◌};
ghost use Rattle.answers.specs.Answered.{answered};
ghost use Rattle.answers.specs.Runs.{values_of, packed};

use crate::Decline;

// A run of positions in a list of keys: its first, and the one after its last.
#[derive(Clone, Copy, PartialEq, Eq)]
pub struct Run {
    pub start: usize,
    pub end: usize,
}

// The runs of a member.
#[derive(Clone, Copy, PartialEq, Eq)]
pub enum Runs {
    // of any member but the lowest
    One(Run),
    // of the lowest member: the keys above the last member, then those at or below the lowest
    Two(Run, Run),
}

// The answer in numbers, as it crosses to C: number 0 or the refusal, how many runs, their starts and their ends; unused ones 0.
#[repr(C)]
#[derive(Clone, Copy)]
pub struct RunsAnswer {
    pub number: u32,
    pub runs: u32,
    pub start: [usize; 2],
    pub end: [usize; 2],
}

// The answer in numbers.
pub fn numbers<E: Decline>(answer: Result<Runs, E>) -> RunsAnswer
    ensures { result ≡ packed (answered values_of E.refused_by answer) }
{
    match answer {
        Ok(Runs::One(u)) => RunsAnswer {
            number: 0,
            runs: 1,
            start: [u.start, 0],
            end: [u.end, 0],
        },
        Ok(Runs::Two(u, v)) => RunsAnswer {
            number: 0,
            runs: 2,
            start: [u.start, v.start],
            end: [u.end, v.end],
        },
        Err(refusal) => {
            let a = refusal.numbers();
            let vs = a.values;
            RunsAnswer {
                number: a.number,
                runs: a.count / 2,
                start: [vs[0] as usize, vs[2] as usize],
                end: [vs[1] as usize, vs[3] as usize],
            }
        }
    }
}
