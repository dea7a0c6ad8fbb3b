#![tactic(auto)]

// What moving two vertices does to labels, loads and cut: laws, and no code. Document 02, A9 "Moves as sums".
