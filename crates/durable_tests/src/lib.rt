//! No code, but tests: the desk, streams and the top call over disks in memory, which fail and crash.
#![tactic(auto)]

#[cfg(test)]
mod files;
#[cfg(test)]
mod moments;
#[cfg(test)]
mod opening_rows;
#[cfg(test)]
mod openings;
#[cfg(test)]
mod run_rows;
#[cfg(test)]
mod runs;
#[cfg(test)]
mod sessions;
#[cfg(test)]
mod stops;
#[cfg(test)]
mod stream_rows;
#[cfg(test)]
mod writing_rows;
