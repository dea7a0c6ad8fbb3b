// The choice of the next vertex: largest gain, then smallest target load after the move, then lowest vertex. Document 01, "Before each move take ..".
ghost use Rattle.std.specs.Prelude.{◌≡◌, true, ◌+◌, ◌^◌, ◌<◌, ◌≤◌, length};
ghost use Rattle.fiduccia_mattheyses_choice.specs.inner.Scan.{Scannable, is_free, free_gain, beats, load_after, ceiling_at, pick_below};
ghost use Rattle.fiduccia_mattheyses_choice.specs.inner.Look.{lesser, room_of, rooms_of, lifts_of, looked, looks, nobody, Holds, Swept};

use crate::{Held, Pick};
use imbalance::{Ceilings, Loads};
use std::marker::Model;

// What stands in the list of gains for a locked vertex. It is a number of the list, as C lends a list of i64.
pub const LOCKED: i64 = -(1 << 62);

// The lowest gain that a free vertex can have.
const LOWEST: i64 = LOCKED + 1;

// No load comes near it: the load of what is held before there is a vertex.
const FAR: u64 = 1 << 63;

// The gain of a free vertex; a locked one has none.
pub fn free_gain(g: i64) -> Option<i64>
    ensures { result ≡ free_gain g }
{
    if LOCKED < g { Some(g) } else { None }
}

// Whether gain g with load l goes before gain h with load m.
fn outranks(g: i64, l: u64, h: i64, m: u64) -> bool
    ensures { result ≡ beats g l h m }
{
    h < g || h <= g && l < m
}

// The weights that a part of this load and ceiling has room for are those below the answer.
fn room(load: u64, ceiling: u64) -> u64
    ensures { result ≡ room_of load ceiling }
{
    if ceiling < load {
        return 0;
    }
    (ceiling - load).min(FAR - 1) + 1
}

// The lesser of the two loads.
fn lesser_load(loads: Loads) -> u64
    requires { length loads.at ≡ 16 }
    ensures { result ≡ lesser loads.at }
{
    loads.at[0].min(loads.at[1])
}

// By a vertex's label, the bound of the weights that its target has room for.
fn rooms_of(loads: Loads, ceilings: Ceilings) -> [u64; 2]
    requires { (length loads.at ≡ 16) × (length ceilings.at ≡ 16) }
    ensures { result ≡ rooms_of loads.at ceilings.at }
{
    let zero = room(loads.at[0], ceilings.at[0]);
    let one = room(loads.at[1], ceilings.at[1]);
    [one, zero]
}

// By a vertex's label, how far its target's load is above the lesser of the two.
fn lifts_of(loads: Loads) -> [u64; 2]
    requires { length loads.at ≡ 16 }
    ensures { result ≡ lifts_of loads.at }
{
    let least = lesser_load(loads);
    [loads.at[1] - least, loads.at[0] - least]
}

// What stands still during a scan: gain, label and weight of each vertex, and by a vertex's label the room in its target and how far the target's load is above the lesser of the two.
#[derive(Drop)]
struct Sight<'a> {
    gains: &'a [i64],
    labels: &'a [u32],
    weights: &'a [u32],
    rooms: [u64; 2],
    lifts: [u64; 2],
}

impl<'a> Model for Sight<'a> {
    ghost use Rattle.fiduccia_mattheyses_choice.specs.inner.Look.{Sight, Sighted, sight_of};

    ghost Value = { Sight };

    ghost view = { λ s. sight_of s.gains.now s.labels.now s.weights.now s.rooms s.lifts };

    ghost invariant = { λ s. Sighted (sight_of s.gains.now s.labels.now s.weights.now s.rooms s.lifts) };
}

impl<'a> Sight<'a> {
    // The look at vertex v. Most vertices end at the first test, by their gain. Of those that tie with what is held most end at the second, by their weight alone: on the lesser of the two loads they would still not be lighter. Only the rest have their label read.
    fn look(&self, held: Held, v: usize) -> Held
        requires { v < length self.now.labels }
        ensures { result ≡ looked self.now held v }
    {
        let gains = self.gains;
        let weights = self.weights;
        let labels = self.labels;
        let g = gains[v];
        if g < held.gain {
            return held;
        }
        let w = u64::from(weights[v]);
        if g <= held.gain && held.load <= w {
            return held;
        }
        let p = labels[v] as usize;
        if self.rooms[p] <= w {
            return held;
        }
        let load = self.lifts[p] + w;
        if outranks(g, load, held.gain, held.load) {
            return Held {
                past: v + 1,
                gain: g,
                load,
            };
        }
        held
    }

    // The looks at twenty vertices, so that the loop's own instructions are shared by twenty. They stand here one by one, as the compiler does not unroll a `for` over twenty steps: with one the scan takes 6.6 instructions a vertex in place of 3.3.
    fn twenty(&self, held: Held, from: usize) -> Held
        requires { (from + 20 ≤ length self.now.labels) × (from + 20 < 2 ^ 64) }
        ensures { result ≡ looks self.now held from 20 }
    {
        let held_1 = self.look(held, from);
        let held_2 = self.look(held_1, from + 1);
        let held_3 = self.look(held_2, from + 2);
        let held_4 = self.look(held_3, from + 3);
        let held_5 = self.look(held_4, from + 4);
        let held_6 = self.look(held_5, from + 5);
        let held_7 = self.look(held_6, from + 6);
        let held_8 = self.look(held_7, from + 7);
        let held_9 = self.look(held_8, from + 8);
        let held_10 = self.look(held_9, from + 9);
        let held_11 = self.look(held_10, from + 10);
        let held_12 = self.look(held_11, from + 11);
        let held_13 = self.look(held_12, from + 12);
        let held_14 = self.look(held_13, from + 13);
        let held_15 = self.look(held_14, from + 14);
        let held_16 = self.look(held_15, from + 15);
        let held_17 = self.look(held_16, from + 16);
        let held_18 = self.look(held_17, from + 17);
        let held_19 = self.look(held_18, from + 18);
        self.look(held_19, from + 19)
    }

    // The best of every 64th vertex, the first of which is given: with its gain and load to begin from, few vertices of the whole scan come to be held on the way, even where the gains rise from vertex to vertex.
    fn sample(&self, first: usize) -> Held
        ensures { Holds self.now nobody result }
    {
        let mut held = Held {
            past: 0,
            gain: LOWEST,
            load: FAR,
        };
        let mut next = first;
        while next < self.labels.len() {
            held = self.look(held, next);
            next += 64;
        }
        held
    }

    // All vertices: blocks of twenty, and then those that are left.
    fn sweep(&self, start: Held) -> Held
        requires { is_free start.gain ≡ true }
        ensures { Swept self.now start (length self.now.labels) result }
    {
        let n = self.labels.len();
        let blocks = n / 20;
        let mut held = start;
        for block in 0..blocks {
            held = self.twenty(held, block * 20);
        }
        for v in blocks * 20..n {
            held = self.look(held, v);
        }
        held
    }
}

// The scan: a sample first, and then all vertices, from one above the sample's load, so that the vertex sampled can itself be held, and a lower one that equals it before it. The sample's first vertex bears on the time alone.
pub fn choose(
    gains: &[i64],
    labels: &[u32],
    weights: &[u32],
    loads: Loads,
    ceilings: Ceilings,
    first: usize,
) -> Option<Pick>
    requires { Scannable gains.now labels.now weights.now loads.at × (length ceilings.at ≡ 16) }
    ensures { result ≡ pick_below gains.now (load_after loads.at weights.now labels.now) (ceiling_at ceilings.at labels.now) (length labels.now) }
{
    let sight = Sight {
        gains,
        labels,
        weights,
        rooms: rooms_of(loads, ceilings),
        lifts: lifts_of(loads),
    };
    let found = sight.sample(first);
    let held = sight.sweep(Held {
        past: 0,
        gain: found.gain,
        load: found.load + 1,
    });
    if held.load < FAR {
        return Some(Pick {
            vertex: held.past - 1,
            gain: held.gain,
        });
    }
    None
}
