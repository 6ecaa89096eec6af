// One member's record, and the steps that take it by value and hand the new record back.
#![tactic(auto)]

ghost use Rattle.std.specs.Prelude.{◌≡◌, ℕ, ◌≤◌, take};
ghost use Rattle.model.specs.Table.{word_limit};
ghost use Rattle.model.specs.Steps.{drop_head, adopt as adoptOf, await_candidate, clear_pending, count_step, rectify as rectifyOf, renews as renewsOf};
ghost use Rattle.member.specs.View.{view};

// Of the 8 entries a table uses the first r, the successor list; the others never matter.
#[derive(Clone, Copy)]
pub struct Member {
    pub id: u32,
    pub predecessor: u32,
    pub pending: u32,
    pub candidate: u32,
    pub successors: [u32; 8],
    pub steps: u32,
}

impl Member {
    // The first of r entries is dropped, and the identifier after the last one appended.
    pub fn drop_head(mut self, r: usize) -> Self
        requires { (1 ≤ r) × (r ≤ 8) }
        ensures { view r result ≡ drop_head word_limit (view r self) }
    {
        let l = self.successors;
        let mut n = [l[1], l[2], l[3], l[4], l[5], l[6], l[7], 0];
        let last = l[r - 1];
        let next = ident::after(last);
        n[r - 1] = next;
        self.successors = n;
        self
    }

    // The list becomes x, and then the list l of x without its last entry.
    pub fn adopt(mut self, x: u32, l: [u32; 8]) -> Self
        ensures { (r : ℕ) → 1 ≤ r → r ≤ 8 → view r result ≡ adoptOf x (take r l) (view r self) }
    {
        let n = [x, l[0], l[1], l[2], l[3], l[4], l[5], l[6]];
        self.successors = n;
        self
    }

    // c is a candidate to look at in the next step.
    pub fn await_candidate(mut self, c: u32) -> Self
        ensures { (r : ℕ) → view r result ≡ await_candidate c (view r self) }
    {
        self.pending = 1;
        self.candidate = c;
        self
    }

    // Nothing is pending any more.
    pub fn clear_pending(mut self) -> Self
        ensures { (r : ℕ) → view r result ≡ clear_pending (view r self) }
    {
        self.pending = 0;
        self.candidate = 0;
        self
    }

    // One step more is counted, up to the largest word.
    #[tactic(auto, using(crate::proofs::Count::saturates))]
    pub fn count_step(mut self) -> Self
        ensures { (r : ℕ) → view r result ≡ count_step (view r self) }
    {
        self.steps = self.steps.saturating_add(1);
        self
    }

    // Does a notice from q change the predecessor? alive: the predecessor is a member.
    #[tactic(auto, unfolding(model::specs::Steps::renews))]
    pub fn renews(self, q: u32, alive: bool) -> bool
        ensures { (r : ℕ) → result ≡ renewsOf alive q (view r self) }
    {
        ident::between(self.predecessor, q, self.id) || !alive
    }

    // The predecessor becomes q, if the notice changes it.
    pub fn rectify(mut self, q: u32, alive: bool) -> Self
        ensures { (r : ℕ) → view r result ≡ rectifyOf alive q (view r self) }
    {
        if self.renews(q, alive) {
            self.predecessor = q;
        }
        self
    }
}
