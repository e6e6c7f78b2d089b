//! Tests of the rewrite rules, of scripts and of terms' texts: programs and scripts as texts, and
//! what comes of them.
#![tactic(auto)]

#[cfg(test)]
mod limits;
#[cfg(test)]
mod names;
#[cfg(test)]
mod refusals;
#[cfg(test)]
mod rules;
#[cfg(test)]
mod running;
#[cfg(test)]
mod scripts;
#[cfg(test)]
mod texts;
