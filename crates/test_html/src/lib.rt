//! Tests of `ira_view_html`: of its template, of which no clause speaks.
#![tactic(auto)]

#[cfg(test)]
mod page_tests;
