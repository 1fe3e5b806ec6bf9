//! A process with the contents of its files.
use crate::made::Made;
use crate::pip::ProcessDesc;
use bx_digest::Blob;

/// A process with the contents of its executable and of its declared files, and the steps that its tool
/// may take.
#[derive(Drop)]
pub struct Desc {
    pub process: ProcessDesc,
    pub exe: Blob,
    pub files: Made,
    pub budget: u64,
}
