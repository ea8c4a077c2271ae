//! Tests of the audits, and of logs that are mended.
#![tactic(auto)]

#[cfg(test)]
mod certified_tests;
#[cfg(test)]
mod findings_tests;
#[cfg(test)]
mod gate_tests;
#[cfg(test)]
mod growth_tests;
#[cfg(test)]
mod lines;
#[cfg(test)]
mod logs_tests;
#[cfg(test)]
mod mend_tests;
#[cfg(test)]
mod pairs;
#[cfg(test)]
mod substituted_tests;
