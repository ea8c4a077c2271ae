//! The auditor for a web page, without threads and files: a request in memory that the page lends, and what the program
//! would print and write of it.
#![tactic(auto)]

mod commands;
mod export;
mod files;
mod request;
mod serve;
mod told;
