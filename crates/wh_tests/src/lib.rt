//! Tests by subject, through the public calls of the other crates.
#![tactic(auto)]

#[cfg(test)]
mod command_line;
#[cfg(test)]
mod composites;
#[cfg(test)]
mod devices;
#[cfg(test)]
mod graphs;
#[cfg(test)]
mod levels;
#[cfg(test)]
mod moves;
#[cfg(test)]
mod peaks;
#[cfg(test)]
mod stabilisers;
#[cfg(test)]
mod straight_lists;
#[cfg(test)]
mod streams;
#[cfg(test)]
mod support;
#[cfg(test)]
mod words;
