//! Tests of printed kernels' code, over public items alone: whole kernels by their texts, for
//! programs along scripts, and one that is built by hand; and of what plans are made of.
#![tactic(auto)]

#[cfg(test)]
mod barriers;
#[cfg(test)]
mod copies;
#[cfg(test)]
mod elements;
#[cfg(test)]
mod emission;
#[cfg(test)]
mod folds;
#[cfg(test)]
mod indices;
#[cfg(test)]
mod items;
#[cfg(test)]
mod last_terms;
#[cfg(test)]
mod local_sizes;
#[cfg(test)]
mod phases;
#[cfg(test)]
mod plans;
#[cfg(test)]
mod private_copies;
#[cfg(test)]
mod reading;
#[cfg(test)]
mod sameness;
#[cfg(test)]
mod spelling;
#[cfg(test)]
mod tidied;
#[cfg(test)]
mod tiles;
#[cfg(test)]
mod vectors;
#[cfg(test)]
mod work_groups;
#[cfg(test)]
mod writing;
