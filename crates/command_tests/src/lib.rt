//! No code, but tests: the fields of commands and their issuers, values, records, and a new database. What texts spell is
//! held by the rows of `command_rows`, and who may give a command, and what it leaves, by streams.
#![tactic(auto)]

#[cfg(test)]
mod database_tests;
#[cfg(test)]
mod record_tests;
#[cfg(test)]
mod text_tests;
#[cfg(test)]
mod value_tests;
