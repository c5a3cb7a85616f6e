//! Calls of one machine again and again, which no run of the built program shows: it calls its machine once, or once for each word.
#![tactic(auto)]

#[cfg(test)]
mod again;
#[cfg(test)]
mod machines;
