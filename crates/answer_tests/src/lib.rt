//! No code, but tests: the images of classes, lines of requests, the desk, and streams from the input to the output.
#![tactic(auto)]

#[cfg(test)]
mod desk_tests;
#[cfg(test)]
mod image_tests;
#[cfg(test)]
mod memory_tests;
#[cfg(test)]
mod request_tests;
#[cfg(test)]
mod stream_tests;
