//! The program, on files and streams in memory.
#![tactic(auto)]

#[cfg(test)]
mod draws;
#[cfg(test)]
mod fakes;
#[cfg(test)]
mod files;
#[cfg(test)]
mod kept;
#[cfg(test)]
mod one_log;
#[cfg(test)]
mod recorded;
#[cfg(test)]
mod refusals;
#[cfg(test)]
mod refused_writes;
#[cfg(test)]
mod requests;
