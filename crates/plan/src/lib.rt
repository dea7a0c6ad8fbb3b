#![tactic(auto)]

// The plan file read and written: the round trips of the reader and the writer. Laws, and no code. Document 01, "Plan blocks"; document 02, A2 and A4.
