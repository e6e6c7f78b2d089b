//! Tests of views, of simplified index expressions and of their spelling, over public items alone.
#![tactic(auto)]

#[cfg(test)]
mod cells;
#[cfg(test)]
mod fours;
#[cfg(test)]
mod growth;
#[cfg(test)]
mod kinds;
#[cfg(test)]
mod layouts;
#[cfg(test)]
mod pads;
#[cfg(test)]
mod pairs;
#[cfg(test)]
mod rows;
#[cfg(test)]
mod spelled;
#[cfg(test)]
mod texts;
#[cfg(test)]
mod tidied;
#[cfg(test)]
mod trees;
