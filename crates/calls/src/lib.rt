// The seven calls as one type, one function over them, and one over a list of them, with demand 3 in its contract.
#![tactic(auto)]

ghost use Rattle.std.specs.Prelude.{◌≡◌, map, ltb, true};
ghost use Rattle.model.specs.Lists.{every};
ghost use Rattle.model.specs.Table.{word_limit};
ghost use Rattle.model.specs.Run.{numbers_of, call_answer, call_words, run};
ghost use Rattle.theory.specs.Claim.{Holds};
ghost use Rattle.answers.specs.Packed.{Says};
ghost use Rattle.calls.specs.Calls.{call_of, MayStart};

use answers::Answer;

// A call of a member: withdrawal is Leave, loss is Fail, find is Lookup.
#[derive(Clone, Copy)]
pub enum Call {
    Join(u32, u32),
    Leave(u32),
    Fail(u32),
    Stabilize(u32),
    Rectify(u32, u32),
    Lookup(u32, u32),
    Audit,
}

// The call on the table: its answer in numbers, and the table afterwards.
pub fn apply(t: &mut [u32], c: Call) -> Answer
    ensures { Says result (call_answer t.old (call_of c)) × (t.new ≡ call_words t.old (call_of c)) }
{
    match c {
        Call::Join(j, p) => answers::numbers(join::join(t, j, p)),
        Call::Leave(n) => answers::numbers(depart::leave(t, n)),
        Call::Fail(n) => answers::numbers(depart::fail(t, n)),
        Call::Stabilize(n) => answers::numbers(stabilize::stabilize(t, n)),
        Call::Rectify(n, q) => answers::numbers(rectify::rectify(t, n, q)),
        Call::Lookup(n, k) => answers::numbers(lookup::lookup(t, n, k)),
        Call::Audit => answers::numbers(audit::audit(t)),
    }
}

// The numbers of a call are words, as each is a `u32`. The body does nothing: `apply_all` calls it for what it ensures.
fn numbers_fit(c: Call)
    ensures { every (λ x. ltb x word_limit) (numbers_of (call_of c)) ≡ true }
{}

// The calls on the table, one after the other, each on what the last one left. From a sound table, with each loss granted, the ring never splits.
pub fn apply_all(t: &mut [u32], cs: &[Call])
    ensures { (t.new ≡ run (map call_of cs.now) t.old) × (MayStart cs.now t.old → Holds t.new) }
{
    for &c in cs {
        numbers_fit(c);
        apply(t, c);
    }
}
