// Loads of the parts and the ceilings on them: coupe's imbalance.rs. Document 01, "The graph and its numbers"; document 02, A4.
#![tactic(auto)]

ghost use Rattle.std.specs.Prelude.{◌≡◌, ◌<◌, ◌≤◌, false, T, length, from_bits, slice_index};
ghost use Rattle.std.specs.Float.{binary64};
ghost use Rattle.lists.specs.Sum.{total};
ghost use Rattle.lists.specs.Fill.{table};
ghost use Rattle.lists.specs.Refusal.{number_in};
ghost use Rattle.imbalance.specs.Limit.{most_weight, heavy, label_above};
ghost use Rattle.imbalance.specs.Load.{loads_of, Loadable};
ghost use Rattle.imbalance.specs.Ceiling.{legal_e, ceiling_of, largest, unfit_choice, ceiling, ceilings};
ghost use Rattle.imbalance.specs.Number.{loads_number, loads_answer};
ghost use Rattle.imbalance.specs.inner.Moved.{loads_moved};

use lists::Refusal;

// "n at most 4,096"
pub const MOST_VERTICES: usize = 4096;

// "a at most 65,535"
pub const MOST_ARCS: usize = 65535;

// "The vertex weights sum to at most 2,147,483,647, and so do the arc weights."
const MOST_WEIGHT: u64 = 2147483647;

// "pass limit above 1,024 (FM, KL)" is number 7
pub const MOST_PASSES: u32 = 1024;

// The ceiling's choices are 0 to 3.
const LAST_CHOICE: u32 = 3;

// The bits of 64.0, and those of -0.0.
const MOST_BITS: u64 = 0x4050_0000_0000_0000;

const NEGATIVE_ZERO_BITS: u64 = 0x8000_0000_0000_0000;

// The load of each of the sixteen parts. Loads and ceilings are two types, so that neither stands for the other.
#[repr(C)]
#[derive(Clone, Copy)]
pub struct Loads {
    pub at: [u64; 16],
}

// What the stand-alone loads answer: document 01's number, and the loads where it is 0. C reads it, so that the refusal is a number.
#[repr(C)]
#[derive(Clone, Copy)]
pub struct LoadsAnswer {
    pub number: u32,
    pub loads: Loads,
}

// What a caller asks of the ceiling: its choice, the whole number, the imbalance e, and the whole number of each part. What the choice does not use is not looked at. C writes it, so that the choice is a number.
#[repr(C)]
#[derive(Clone, Copy)]
pub struct Ceiling {
    pub choice: u32,
    pub whole: u32,
    pub imbalance: f64,
    pub each: [u32; 16],
}

// The ceiling of each of the sixteen parts.
#[derive(Clone, Copy)]
pub struct Ceilings {
    pub at: [u64; 16],
}

// Number 5's test: whether the weights sum to more than their limit. It takes each weight off what remains of the limit and stops at the first that does not fit, so no sum can wrap.
pub fn over_limit(weights: &[u32]) -> bool
    ensures { result ≡ heavy weights.now }
{
    let mut rest = MOST_WEIGHT;
    for weight in weights {
        let w = u64::from(*weight);
        if rest < w {
            return true;
        }
        rest -= w;
    }
    false
}

// Number 6's test: whether some label is above `most`.
pub fn label_above(labels: &[u32], most: u32) -> bool
    ensures { result ≡ label_above most labels.now }
{
    labels.iter().any(|label| most < *label)
}

// The sum of weights within their limit.
pub fn total_weight(weights: &[u32]) -> u64
    requires { total weights.now ≤ most_weight }
    ensures { result ≡ total weights.now }
{
    weights.iter().map(|w| u64::from(*w)).sum()
}

// The load of each part.
pub fn parts_load(weights: &[u32], labels: &[u32]) -> Loads
    requires { Loadable weights.now labels.now }
    ensures { result ≡ loads_of weights.now labels.now }
{
    let mut at = [0u64; 16];
    for (v, label) in labels.iter().enumerate() {
        at[*label as usize] += u64::from(weights[v]);
    }
    Loads { at }
}

// The loads after a vertex of weight w left one part for another: one place down and one up.
pub fn moved_loads(loads: Loads, old: u32, new: u32, w: u32) -> Loads
    requires { (old < 16) × (new < 16) × (length loads.at ≡ 16) × (w ≤ slice_index loads.at old) × (slice_index loads.at new ≤ most_weight) }
    ensures { result.at ≡ loads_moved loads.at old new w }
{
    let from = old as usize;
    let to = new as usize;
    let mut next = loads;
    next.at[from] = loads.at[from] - u64::from(w);
    next.at[to] = loads.at[to] + u64::from(w);
    next
}

// Why a call of the stand-alone loads is refused.
fn check_loads(weights: &[u32], labels: &[u32]) -> Result<(), Refusal>
    ensures { number_in result ≡ loads_number weights.now labels.now }
{
    if weights.len() != labels.len() {
        return Err(Refusal::Lengths);
    }
    if MOST_VERTICES < labels.len() {
        return Err(Refusal::Limits);
    }
    if over_limit(weights) {
        return Err(Refusal::Weights);
    }
    if label_above(labels, 15) {
        return Err(Refusal::Labels);
    }
    Ok(())
}

// The load of each part, for every input: the stand-alone call.
pub fn compute_parts_load(weights: &[u32], labels: &[u32]) -> LoadsAnswer
    ensures { result ≡ loads_answer weights.now labels.now }
{
    if let Err(refusal) = check_loads(weights, labels) {
        return LoadsAnswer {
            number: u32::from(refusal),
            loads: Loads { at: [0; 16] },
        };
    }
    LoadsAnswer {
        number: 0,
        loads: parts_load(weights, labels),
    }
}

// Whether the bits are those of an e from 0.0 to 64.0, or of -0.0. No NaN is: its bits are above those of 64.0.
pub fn legal_bits(bits: u64) -> bool
    ensures { result ≡ legal_e (from_bits binary64 bits) }
{
    bits <= MOST_BITS || bits == NEGATIVE_ZERO_BITS
}

// Whether e is from 0.0 to 64.0, -0.0 included. It is judged by its bits, so that no mode of the processor that takes the least numbers for zero bears on it; a NaN, which alone differs from itself, has no bits of its own.
pub fn legal_e(e: f64) -> bool
    ensures { result ≡ legal_e e }
{
    !e.is_nan() && legal_bits(e.to_bits())
}

// Number 7's test of the choice. What the choice does not use is not looked at: e may be a NaN with every choice but 2.
pub fn unfit_choice(asked: Ceiling) -> bool
    ensures { result ≡ unfit_choice asked }
{
    LAST_CHOICE < asked.choice || asked.choice == 2 && !legal_e(asked.imbalance)
}

// The ceiling from the imbalance: one rounding per operation, then the whole number at or below.
pub fn ceiling_by(total: u64, parts: u32, e: f64) -> u64
    requires { (total ≤ most_weight) × (0 < parts) × (parts ≤ 16) × T (legal_e e) }
    ensures { result ≡ ceiling_of total parts e }
{
    let i = (total as f64) / (parts as f64);
    let c = i + e * i;
    std::num::truncating_f64_to_u64(c)
}

// The largest of the sixteen loads.
fn largest_load(loads: Loads) -> u64
    ensures { result ≡ largest 16 (λ t. slice_index loads.at t) }
{
    let mut most = 0;
    for load in &loads.at {
        most = most.max(*load);
    }
    most
}

// The one ceiling of a choice up to 2: the largest starting load, a whole number, or from the imbalance.
fn ceiling_of(loads: Loads, total: u64, parts: u32, asked: Ceiling) -> u64
    requires { (total ≤ most_weight) × (0 < parts) × (parts ≤ 16) × (unfit_choice asked ≡ false) × (asked.choice ≤ 2) }
    ensures { result ≡ ceiling loads.at total parts asked }
{
    match asked.choice {
        0 => largest_load(loads),
        1 => u64::from(asked.whole),
        _ => ceiling_by(total, parts, asked.imbalance),
    }
}

// The whole number of each part, as ceilings.
fn ceilings_by_part(asked: Ceiling) -> Ceilings
    ensures { result.at ≡ table 16 (λ t. slice_index asked.each t) }
{
    Ceilings {
        at: asked.each.map(|ceiling| u64::from(ceiling)),
    }
}

// The ceilings by part: with choice 3 each part has its own, with the others all have one.
pub fn ceilings_of(loads: Loads, total: u64, parts: u32, asked: Ceiling) -> Ceilings
    requires { (total ≤ most_weight) × (0 < parts) × (parts ≤ 16) × (unfit_choice asked ≡ false) }
    ensures { result.at ≡ ceilings loads.at total parts asked }
{
    if asked.choice == 3 {
        return ceilings_by_part(asked);
    }
    let c = ceiling_of(loads, total, parts, asked);
    Ceilings { at: [c; 16] }
}
