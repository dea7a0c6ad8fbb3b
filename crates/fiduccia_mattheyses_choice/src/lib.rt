// Which vertex FM moves next: coupe's algorithms/fiduccia_mattheyses.rs, where a pass looks for its next move. Document 01, "FM".
#![tactic(auto)]

pub mod scan; // scan.rt: the scan over the list of gains

// The vertex that the scan finds, with its gain.
#[derive(Clone, Copy)]
pub struct Pick {
    pub vertex: usize,
    pub gain: i64,
}

// What a scan holds on its way: one past the vertex, its gain, and how far its target's load after the move is above the lesser of the two loads. Nobody is held while the load is FAR: one comparison ranks a vertex against either, where an Option would have each look ask first.
#[derive(Clone, Copy)]
pub struct Held {
    pub past: usize,
    pub gain: i64,
    pub load: u64,
}
