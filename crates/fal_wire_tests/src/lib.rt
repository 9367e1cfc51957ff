//! Tests of records. They stand apart, since a crate with tests is proved twice.
#![tactic(auto)]

#[cfg(test)]
mod digests;
#[cfg(test)]
mod drawn;
#[cfg(test)]
mod records;
#[cfg(test)]
mod table;
