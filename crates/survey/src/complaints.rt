//! Why there is nothing to print.
use crate::requests::Ends;
use fabric::{ChartFault, Refusal};
use std::alloc::AllocError;
use std::io;
use thiserror::Error;

#[derive(Debug, Drop, Error)]
pub(crate) enum Complaint {
    /// The words are not those that a survey takes.
    #[error("the words should be: mesh ROWS COLUMNS [way FROM TO]...")]
    Words,
    /// The word stands where a number is wanted.
    #[error("'{0}' is not a number from 0 to 4294967295")]
    NotANumber(String),
    /// The library refuses to build the fabric.
    #[error("refusal {number}: {rule}", number = .0.number(), rule = .0)]
    Refused(#[from] Refusal),
    /// The library refuses the chart in the file.
    #[error("refusal {number} of '{file}' at record {record}, port {port}: {rule}", number = .fault.refusal.number(), record = .fault.record, port = .fault.port, rule = .fault.refusal)]
    Chart { file: String, fault: ChartFault },
    /// The library refuses to close the link.
    #[error("refusal {number} to close {from} - {to}: {refusal}", number = .refusal.number(), from = .ends.from, to = .ends.to)]
    Link { ends: Ends, refusal: Refusal },
    /// No node of the fabric has the label.
    #[error("label {label} does not exist: the labels are 0 to {last}")]
    NoLabel { label: u32, last: u8 },
    /// The memory does not suffice.
    #[error("out of memory")]
    Memory(#[from(alloc)] AllocError),
    /// The file cannot be read.
    #[error("'{file}' cannot be read: {error}")]
    Input { file: String, error: io::Error },
    /// The file cannot be written.
    #[error("'{file}' cannot be written: {error}")]
    Output { file: String, error: io::Error },
    /// The arguments cannot be read, or the text cannot be written.
    #[error("the arguments cannot be read, or the text cannot be written: {0}")]
    Io(#[from] io::Error),
}
