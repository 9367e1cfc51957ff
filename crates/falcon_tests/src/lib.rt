//! Tests of the whole program, over scripts, sources and sinks in memory.
#![tactic(auto)]

#[cfg(test)]
mod drawn;
#[cfg(test)]
mod operations;
#[cfg(test)]
mod outputs;
#[cfg(test)]
mod rules;
#[cfg(test)]
mod running;
#[cfg(test)]
mod statuses;
