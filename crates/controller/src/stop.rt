// Why a job stops early.
use machine::faults::MemoryFault;
use std::io;
use thiserror::Error;

#[derive(Debug, Drop, Error)]
pub enum Stop {
    #[error("the memory refused: {0:?}")]
    Memory(#[from] MemoryFault),
    #[error("the output failed: {0}")]
    Output(#[from] io::Error),
}
