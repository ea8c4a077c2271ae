//! Tests of `ira_cert`, `ira_elim` and `ira_par`: the checkers of certificates, on one thread and on several, and the
//! maker.
#![tactic(auto)]

#[cfg(test)]
mod every_cut_tests;
#[cfg(test)]
mod every_section_tests;
#[cfg(test)]
mod found_tests;
#[cfg(test)]
mod gate_tests;
#[cfg(test)]
mod growth_tests;
#[cfg(test)]
mod long_section_tests;
#[cfg(test)]
mod maker_choice_tests;
#[cfg(test)]
mod random_section_tests;
#[cfg(test)]
mod section_tests;
#[cfg(test)]
mod verdicts;
