//! No code, but tests: the journal over disks in memory.
#![tactic(auto)]

#[cfg(test)]
mod command_tests;
#[cfg(test)]
mod crash_tests;
#[cfg(test)]
mod layout_tests;
#[cfg(test)]
mod stored_tests;
