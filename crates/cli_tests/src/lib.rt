//! Tests of calls below the program `kdl` that no run of it shows: what items print that the program prints in its own
//! words, faults that no text has, and differences that no layout makes. All else is in the rows of `checks/runs`.
#![tactic(auto)]

#[cfg(test)]
mod differences;
#[cfg(test)]
mod faults;
#[cfg(test)]
mod prints;
