//! Tests of the parts of nodes and clients. They stand apart, since a crate with tests is proved twice.
#![tactic(auto)]

#[cfg(test)]
mod batches;
#[cfg(test)]
mod faults;
#[cfg(test)]
mod keys;
#[cfg(test)]
mod locks;
#[cfg(test)]
mod places;
#[cfg(test)]
mod replicas;
#[cfg(test)]
mod rows;
#[cfg(test)]
mod verdicts;
