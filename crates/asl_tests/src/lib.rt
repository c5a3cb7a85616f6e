//! Tests of public calls of the other crates, where no clause says what they test. Most tests are rows of `tests/rows.txt`; here
//! stands what no program's text shows. A long table is given by a function of its own, since the proof of a function goes at
//! each step over all that it holds.
#![tactic(auto)]

#[cfg(test)]
mod bits;
#[cfg(test)]
mod commands;
#[cfg(test)]
mod constraints;
#[cfg(test)]
mod declarations;
#[cfg(test)]
mod lexemes;
#[cfg(test)]
mod literals;
#[cfg(test)]
mod numbers;
#[cfg(test)]
mod outside;
#[cfg(test)]
mod polynomials;
#[cfg(test)]
mod types;
#[cfg(test)]
mod values;
#[cfg(test)]
mod widths;
