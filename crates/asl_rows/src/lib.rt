//! Command lines over files and sinks in memory, for what a row of `tests/rows.txt` can't ask of the built program: little room, small
//! pieces, and calls that fail.
#![tactic(auto)]

#[cfg(test)]
mod failing;
#[cfg(test)]
mod rows;
#[cfg(test)]
mod running;
#[cfg(test)]
mod watched;
