//! No code, but tests: names, which of them a profile covers and which is more specific, against rows that an
//! independent program computed.
#![tactic(auto)]

#[cfg(test)]
mod generic_tests;
