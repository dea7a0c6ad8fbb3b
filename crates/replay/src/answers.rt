// The cuts and the loads: each calls the library, and holds its answer to the rest of the line. Document 01, its opening: coupe decides labels and counts.
use crate::case::Case;
use crate::reader::{Mismatch, Reader};

// A call whose number is not 0 gives no answer. The library's answers are those that C gets, and so the refusal is a number here.
fn expect_done(number: u32) -> Result<(), Mismatch> {
    if number == 0 {
        Ok(())
    } else {
        Err(Mismatch::Differs)
    }
}

// The line's one number.
pub fn edge_cut(case: Case, reader: &mut Reader) -> Result<(), Mismatch> {
    let labels = case.labels;
    let answer = case.graph.edge_cut(labels);
    expect_done(answer.number)?;
    reader.expect(answer.cut)
}

// The line's one number.
pub fn lambda_cut(case: Case, reader: &mut Reader) -> Result<(), Mismatch> {
    let labels = case.labels;
    let answer = case.graph.lambda_cut(case.weights, labels);
    expect_done(answer.number)?;
    reader.expect(answer.cut)
}

// The line's sixteen numbers.
pub fn loads(case: Case, reader: &mut Reader) -> Result<(), Mismatch> {
    let labels = case.labels;
    let answer = imbalance::compute_parts_load(case.weights, labels);
    expect_done(answer.number)?;
    reader.expect_all(&answer.loads.at)
}
