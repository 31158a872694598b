//! No code, but tests: databases made of images and of rows, where there is memory.
#![tactic(auto)]

#[cfg(test)]
mod making_tests;
