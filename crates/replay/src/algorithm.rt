// The algorithms, by their codes and names. Document 01, its opening: coupe decides labels and counts.
use crate::reader::Mismatch;
use std::fmt;

#[derive(Clone, Copy, Debug, PartialEq, Eq)]
pub enum Algorithm {
    EdgeCut,
    LambdaCut,
    Loads,
    FiducciaMattheyses,
    KernighanLin,
    ArcSwap,
}

// A code that names no algorithm.
#[derive(Clone, Copy, Debug)]
pub struct NoAlgorithm;

impl TryFrom<u64> for Algorithm {
    type Error = NoAlgorithm;

    fn try_from(code: u64) -> Result<Self, NoAlgorithm> {
        match code {
            1 => Ok(Algorithm::EdgeCut),
            2 => Ok(Algorithm::LambdaCut),
            3 => Ok(Algorithm::Loads),
            4 => Ok(Algorithm::FiducciaMattheyses),
            5 => Ok(Algorithm::KernighanLin),
            6 => Ok(Algorithm::ArcSwap),
            _ => Err(NoAlgorithm),
        }
    }
}

impl fmt::Display for Algorithm {
    fn fmt<W: fmt::Write>(&self, f: &mut fmt::Formatter<W>) -> fmt::Result {
        match self {
            Algorithm::EdgeCut => write!(f, "edge cut"),
            Algorithm::LambdaCut => write!(f, "lambda cut"),
            Algorithm::Loads => write!(f, "loads"),
            Algorithm::FiducciaMattheyses => write!(f, "FM"),
            Algorithm::KernighanLin => write!(f, "KL"),
            Algorithm::ArcSwap => write!(f, "arc-swap"),
        }
    }
}

// What a line asks for: the algorithm that it names, if it names one.
#[derive(Clone, Copy, Debug, PartialEq, Eq)]
pub struct Asked {
    pub algorithm: Option<Algorithm>,
}

impl Asked {
    // By the digits that the line begins with, whatever follows them: a damaged line counts as one of the algorithm that it names.
    pub fn by_code(code: Result<u64, Mismatch>) -> Self {
        Asked {
            algorithm: code.ok().and_then(|code| Algorithm::try_from(code).ok()),
        }
    }
}

impl fmt::Display for Asked {
    fn fmt<W: fmt::Write>(&self, f: &mut fmt::Formatter<W>) -> fmt::Result {
        match self.algorithm {
            Some(algorithm) => write!(f, "{algorithm}"),
            None => write!(f, "no algorithm"),
        }
    }
}
