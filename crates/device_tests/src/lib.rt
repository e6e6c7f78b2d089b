//! Tests of the device: kernels of the whole language, run by one work-item and by many, along
//! schedules; of its marks of cells and its enabled events.
#![tactic(auto)]

#[cfg(test)]
mod cells;
#[cfg(test)]
mod deep;
#[cfg(test)]
mod events;
#[cfg(test)]
mod faults;
#[cfg(test)]
mod fours;
#[cfg(test)]
mod grids;
#[cfg(test)]
mod ifs;
#[cfg(test)]
mod items;
#[cfg(test)]
mod kernels;
#[cfg(test)]
mod machine;
#[cfg(test)]
mod runs;
#[cfg(test)]
mod schedules;
#[cfg(test)]
mod texts;
#[cfg(test)]
mod traces;
#[cfg(test)]
mod worked;
