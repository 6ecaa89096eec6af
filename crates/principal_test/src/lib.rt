// The principal test of one member: pair by pair, record by record, each extended successor list from its front, up to the first that skips it.
#![tactic(auto)]

ghost use Rattle.std.specs.Prelude.{◌≡◌, ◌<◌, get_or};
ghost use Rattle.model.specs.Table.{members_in, ids};
ghost use Rattle.model.specs.Ring.{nobody};
ghost use Rattle.model.specs.Pairs.{neighbours, principal_reply};
ghost use Rattle.model.specs.Calls.{principal_answer};
ghost use Rattle.table.specs.FormedWords.{FormedWords};
ghost use Rattle.answers.specs.Tested.{answer_of, values_of};
ghost use Rattle.principal_test.specs.Spared.{spared};

use answers::refusal::Refusal;
use answers::tested::Tested;

// How many pairs of the extended list of the member at place k come before the first that skips x: all r if none does.
fn pairs_before(t: &[u32], k: usize, x: u32) -> usize
    requires formed_words { FormedWords t.now }
    requires k_bound { k < get_or t.now 1 0 }
    ensures { result ≡ spared x (neighbours (get_or (ids (members_in t.now)) k 0) (get_or (members_in t.now) k nobody).successors) }
{
    let r = t[words::R] as usize;
    let at = words::offset(r, k);
    let from = at + words::LIST;
    let mut a = t[at];
    for (i, &b) in t[from..from + r].iter().enumerate() {
        if ident::between(a, x, b) {
            return i;
        }
        a = b;
    }
    r
}

// The test of x on a well-formed table, whether or not x is a member.
fn test_pairs(t: &[u32], x: u32) -> Tested
    requires { FormedWords t.now }
    ensures { values_of result ≡ principal_reply (members_in t.now) x }
{
    let r = t[words::R] as usize;
    let n = t[words::COUNT] as usize;
    let mut taken = 0;
    for k in 0..n {
        let before = pairs_before(t, k, x);
        if before < r {
            return Tested {
                principal: false,
                pairs: (taken + before + 1) as u32,
            };
        }
        taken += r;
    }
    Tested {
        principal: true,
        pairs: taken as u32,
    }
}

// Is the member n a principal, and how many pairs did it take to tell: or 1 or 3.
pub fn principal_test(t: &[u32], n: u32) -> Result<Tested, Refusal>
    ensures { answer_of result ≡ principal_answer t.now n }
{
    standing::standing_of(t, n)?;
    Ok(test_pairs(t, n))
}
