//! Tests of the memories. Each rule is a table of cases, run on either memory through the trait; and both are compared with
//! plain bytes on long random runs.
#![tactic(auto)]

#[cfg(test)]
mod accesses;
#[cfg(test)]
mod comparison;
#[cfg(test)]
mod edges;
#[cfg(test)]
mod frames;
#[cfg(test)]
mod made;
#[cfg(test)]
mod making;
#[cfg(test)]
mod model;
#[cfg(test)]
mod numbers;
#[cfg(test)]
mod random;
#[cfg(test)]
mod ranges;
#[cfg(test)]
mod tested;
