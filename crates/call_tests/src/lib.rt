//! Tests of calls that no row of text can describe: look-ups, edits, iterators, sorts, copies, equality and hashes,
//! layout, and continued counts.
#![tactic(auto)]

#[cfg(test)]
mod copies;
#[cfg(test)]
mod depth;
#[cfg(test)]
mod edits;
#[cfg(test)]
mod fields;
#[cfg(test)]
mod lacks;
#[cfg(test)]
mod layout;
#[cfg(test)]
mod lookups;
#[cfg(test)]
mod nodes;
#[cfg(test)]
mod reading;
#[cfg(test)]
mod steps;
#[cfg(test)]
mod values;
