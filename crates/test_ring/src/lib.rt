//! Tests of `ira_ring`.
#![tactic(auto)]

#[cfg(test)]
mod gate_tests;
#[cfg(test)]
mod growth_tests;
#[cfg(test)]
mod run_tests;
#[cfg(test)]
mod samples;
#[cfg(test)]
mod seeded_tests;
#[cfg(test)]
mod tests;
#[cfg(test)]
mod thread_tests;
