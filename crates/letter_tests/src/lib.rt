//! Letters at their boundaries: which bytes read, where the others are refused, which letters can be made,
//! and what is reported of them.
//! The crate has nothing but tests.
#![tactic(auto)]

#[cfg(test)]
mod base;
#[cfg(test)]
mod clock;
#[cfg(test)]
mod estimate;
#[cfg(test)]
mod head;
#[cfg(test)]
mod length;
#[cfg(test)]
mod making;
#[cfg(test)]
mod refusal;
#[cfg(test)]
mod report;
