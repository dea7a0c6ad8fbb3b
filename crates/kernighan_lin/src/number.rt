// Why a call is refused. Document 01, "Numbers a call gives back".
ghost use Rattle.std.specs.Prelude.{◌≡◌, length};
ghost use Rattle.lists.specs.Refusal.{number_in};
ghost use Rattle.kernighan_lin.specs.Entry.{uses, different, mislabelled, short, number_of};

use crate::Lengths;
use lists::Refusal;
use topology::Graph;

// Whether some vertex has label t.
fn has_label(labels: &[u32], t: u32) -> bool
    ensures { result ≡ uses labels.now t }
{
    labels.iter().any(|label| *label == t)
}

// How many different labels there are, of 0 to 15. As `(0..16).filter(..).count()` it was tried, and the proof did not close: `different` is a sum over the labels, not a list's length.
fn different_labels(labels: &[u32]) -> u32
    ensures { result ≡ different labels.now }
{
    let mut count = 0;
    for t in 0..16 {
        if has_label(labels, t) {
            count += 1;
        }
    }
    count
}

// Number 6's test.
fn mislabels(labels: &[u32]) -> bool
    ensures { result ≡ mislabelled labels.now }
{
    imbalance::label_above(labels, 15) || different_labels(labels) != 2
}

// The lengths of the lent lists.
pub fn lengths_of(gains: &[i64], locks: &[u8], swaps: &[u32]) -> Lengths
    ensures { result ≡ record { gains = length gains.now; locks = length locks.now; swaps = length swaps.now } }
{
    Lengths {
        gains: gains.len(),
        locks: locks.len(),
        swaps: swaps.len(),
    }
}

// Number 8's test, of the lengths of the lent lists.
fn too_short(n: usize, lengths: Lengths) -> bool
    ensures { result ≡ short n lengths }
{
    lengths.gains < n || lengths.locks < n || lengths.swaps < n / 2
}

// The first number that applies.
pub fn check(
    graph: &Graph,
    weights: &[u32],
    labels: &[u32],
    lengths: Lengths,
    passes: u32,
) -> Result<(), Refusal>
    ensures { number_in result ≡ number_of graph.now weights.now labels.now lengths passes }
{
    let n = labels.len();
    graph.check(weights, n)?;
    if mislabels(labels) {
        return Err(Refusal::Labels);
    }
    if imbalance::MOST_PASSES < passes {
        return Err(Refusal::Settings);
    }
    if too_short(n, lengths) {
        return Err(Refusal::Lent);
    }
    Ok(())
}
