// What every crate shares: why a call is refused, how a run ends, and lent lists filled. Document 01, "Numbers a call gives back" and "What must change shape".
#![tactic(auto)]

mod end; // end.rt: how a run ends
mod refusal; // refusal.rt: the numbers of document 01, as an enum

ghost use Rattle.std.specs.Prelude.{◌≡◌, ◌≤◌, length};
ghost use Rattle.lists.specs.Fill.{filled};

pub use end::End;
pub use refusal::Refusal;

// x in the first n places; the others are kept.
pub fn fill<T: Copy>(xs: &mut [T], n: usize, x: T)
    requires { n ≤ length xs.old }
    ensures { xs.new ≡ filled x n xs.old }
{
    for i in 0..n {
        xs[i] = x;
    }
}
