//! No code, but tests: images, ACEEs and decisions where memory is wanting, over a database that commands made.
#![tactic(auto)]

#[cfg(test)]
mod tests;
