// Numbers by place: arrays with a number for each member. For the crates above; a caller of the library uses none of this.
#![tactic(auto)]

ghost use Rattle.std.specs.Prelude.{◌≡◌, ◌≤◌, eqb, length, take};
ghost use Rattle.model.specs.Lists.{count};

// How many of the first n numbers are v.
pub fn count_of(a: &[u16; 256], n: usize, v: u16) -> usize
    requires { (n ≤ 256) × (n ≤ length a.now) }
    ensures { (result ≡ count (eqb v) (take n a.now)) × (result ≤ n) }
{
    a[..n].iter().filter(|x| v == **x).count()
}
