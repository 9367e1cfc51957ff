//! Tests of what comes to a node and to the coordinator. They stand apart, since a crate with tests is proved twice.
#![tactic(auto)]

#[cfg(test)]
mod deliveries;
#[cfg(test)]
mod effect;
#[cfg(test)]
mod hearings;
