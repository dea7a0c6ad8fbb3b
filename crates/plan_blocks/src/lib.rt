// The parts of a plan file: its words, its blocks, its header and the ceiling's value. Document 01, "Plan blocks"; document 02, A2 and A4.
#![tactic(auto)]

pub mod words; // words.rt: words read and stored, little-endian, and the sum of a block's words
pub mod block; // block.rt: a file's kind, and one block of it judged: its sum and its layout
pub mod layout; // layout.rt: the header's ranges, how many blocks there are, and their kinds and record counts
pub mod ceiling; // ceiling.rt: the ceiling's value as 8 bytes, and its number for each part
pub mod header; // header.rt: the header's numbers, decoded and judged
