//! Tests of the crates that the audit and the runners stand on: `ira_event`, `ira_node`, `ira_replay`, `ira_pred`,
//! `ira_cand`, `ira_ask`, `ira_cert_text`, `ira_order`, `ira_links` and `test_refusing`.
#![tactic(auto)]

#[cfg(test)]
mod ask_tests;
#[cfg(test)]
mod cand_tests;
#[cfg(test)]
mod certificate_size_tests;
#[cfg(test)]
mod certificate_tests;
#[cfg(test)]
mod clause_tests;
#[cfg(test)]
mod growth_tests;
#[cfg(test)]
mod links_tests;
#[cfg(test)]
mod malicious_question_tests;
#[cfg(test)]
mod node_tests;
#[cfg(test)]
mod order_tests;
#[cfg(test)]
mod pairs_tests;
#[cfg(test)]
mod question_fault_tests;
#[cfg(test)]
mod question_samples;
#[cfg(test)]
mod random_question_tests;
#[cfg(test)]
mod reading_tests;
#[cfg(test)]
mod replay_tests;
#[cfg(test)]
mod samples;
#[cfg(test)]
mod trial_tests;
#[cfg(test)]
mod writing_tests;
