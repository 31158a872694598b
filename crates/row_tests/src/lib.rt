//! No code, but tests: the rows of a database, the tree of groups, the profiles of classes, and rows in tables.
#![tactic(auto)]

#[cfg(test)]
mod class_tests;
#[cfg(test)]
mod profile_tests;
#[cfg(test)]
mod table_tests;
#[cfg(test)]
mod tree_tests;
