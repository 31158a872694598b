//! No code, but tests: what lies outside of the program, lists in rows, and lists and rows whose versions share.
#![tactic(auto)]

#[cfg(test)]
mod defined_tests;
#[cfg(test)]
mod disk_tests;
#[cfg(test)]
mod outside_tests;
#[cfg(test)]
mod page_tests;
#[cfg(test)]
mod region_tests;
#[cfg(test)]
mod sorted_tests;
#[cfg(test)]
mod tiered_tests;
