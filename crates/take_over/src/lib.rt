// The take-over choice of a shelf that holds two replies.
#![tactic(auto)]

ghost use Rattle.std.specs.Prelude.{◌≡◌};
ghost use Rattle.model.specs.Lists.{without_last};
ghost use Rattle.model.specs.TakeOver.{chooses_candidate, take_over};

// A list without its last entry: the empty part of an empty list.
fn without_last<'a>(l: &'a [u32]) -> &'a [u32]
    ensures { result.now ≡ without_last l.now }
{
    &l[..l.len().saturating_sub(1)]
}

// Is the list cs of c the one to take over?
#[tactic(auto, unfolding(model::specs::TakeOver::chooses_candidate))]
pub fn chooses_candidate(own: u32, h: u32, c: u32, cs: &[u32]) -> bool
    ensures { result ≡ chooses_candidate own h c cs.now }
{
    !cs.is_empty() && ident::between(own, c, h)
}

// The part to take over, of the list cs of c or the list hs of h: both are lent for one lifetime.
#[tactic(auto, unfolding(model::specs::TakeOver::take_over))]
pub fn take_over<'a>(own: u32, h: u32, c: u32, hs: &'a [u32], cs: &'a [u32]) -> &'a [u32]
    ensures { result.now ≡ take_over own h c hs.now cs.now }
{
    if chooses_candidate(own, h, c, cs) {
        without_last(cs)
    } else {
        without_last(hs)
    }
}
