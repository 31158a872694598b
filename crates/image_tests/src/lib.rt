//! No code, but tests: images of databases, read and written.
#![tactic(auto)]

#[cfg(test)]
mod image_tests;
