//! Tests of the store over SQL tables, beside the one in ordered maps.
#![tactic(auto)]

#[cfg(test)]
mod adopts;
#[cfg(test)]
mod files;
#[cfg(test)]
mod lent;
#[cfg(test)]
mod lists;
#[cfg(test)]
mod making;
#[cfg(test)]
mod migrating;
#[cfg(test)]
mod opening;
#[cfg(test)]
mod rows;
#[cfg(test)]
mod slices;
#[cfg(test)]
mod stops;
#[cfg(test)]
mod tables;
#[cfg(test)]
mod work;
#[cfg(test)]
mod world;
