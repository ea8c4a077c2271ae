use crate::program_fault::ProgramFault;
use ira_main_cli::{CheckRequest, RunRequest};
use ira_view::Status;
use std::alloc::Allocator;

/// How far the program comes without waiting.
#[derive(Drop)]
pub enum Progress<'a, A: Allocator> {
    /// All was done that the words ask for.
    Ended(Result<Status, ProgramFault<'a, A>>),
    /// They ask for a check, of which nothing was done.
    Check(CheckRequest<'a>),
    /// They ask for a run with a thread for each node, of which nothing was done.
    Run(RunRequest<'a>),
}
