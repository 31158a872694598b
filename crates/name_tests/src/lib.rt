//! No code, but tests: identifiers and levels, access lists, and profiles by what they cover.
#![tactic(auto)]

#[cfg(test)]
mod index_tests;
#[cfg(test)]
mod level_tests;
#[cfg(test)]
mod list_tests;
