//! Tests of the hall, by calls that any crate may make. A module bears the name of the crate that it tests.
#![tactic(auto)]

#[cfg(test)]
mod crowd;
#[cfg(test)]
mod desk;
#[cfg(test)]
mod devices;
#[cfg(test)]
mod fixtures;
#[cfg(test)]
mod http;
#[cfg(test)]
mod opening;
#[cfg(test)]
mod peers;
#[cfg(test)]
mod socket;
#[cfg(test)]
mod store;
#[cfg(test)]
mod tool;
