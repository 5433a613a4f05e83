//! The kinds of order at their boundaries: which fields read, where the others are refused, how values rank and
//! print, and what a fault comes to. The crate has nothing but tests.
#![tactic(auto)]

#[cfg(test)]
mod fields;
#[cfg(test)]
mod lamp_number;
#[cfg(test)]
mod lamp_order;
#[cfg(test)]
mod refusal;
#[cfg(test)]
mod texts;
