//! Tests of ends that make plans, and of their data pages: each call once, beside plans and answers that were worked out by hand.
#![tactic(auto)]

#[cfg(test)]
mod page_tests;
#[cfg(test)]
mod plan_tests;
