// Identifiers: the order round the ring, and the identifier after another.
#![tactic(auto)]

ghost use Rattle.std.specs.Prelude.{◌≡◌};
ghost use Rattle.model.specs.Identifier.{between as betweenOf, after as after_of};
ghost use Rattle.model.specs.Table.{word_limit};

// Does n lie strictly inside the way up from a to b, round the end if need be?
pub fn between(a: u32, n: u32, b: u32) -> bool
    ensures { result ≡ betweenOf a n b }
{
    if a < b {
        a < n && n < b
    } else {
        a < n || n < b
    }
}

// The identifier after n, where each word is one: a wrapping add of one.
#[tactic(auto, using(crate::proofs::Wrap::after_wraps))]
pub fn after(n: u32) -> u32
    ensures { result ≡ after_of word_limit n }
{
    n.wrapping_add(1)
}
