// The refine program: reads a plan from standard input, refines it, and prints the run or the number that refuses it. Document 01, the end of "The eight-block grid".
#![tactic(auto)]

// One byte more than the longest input, so that a longer one shows.
fn room_for_input() -> [u8; refine_text::INPUT_BYTES + 1] {
    [0; refine_text::INPUT_BYTES + 1]
}

fn room_for_output() -> [u8; refine_text::TEXT_BYTES] {
    [0; refine_text::TEXT_BYTES]
}

fn main() {
    let mut input = room_for_input();
    let mut output = room_for_output();
    let got = io::read_full(0, &mut input);
    let length = refine_text::refine_text(&input[..got], &mut output);
    io::write_all(1, &output[..length]);
}
