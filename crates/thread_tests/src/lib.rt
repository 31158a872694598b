//! No code, but tests: decks and request files, side by side over one history, and callers that ask.
#![tactic(auto)]

#[cfg(test)]
mod tests;
