//! Tests of clocked runs. What is expected was worked out by hand from the rules of firing.
#![tactic(auto)]

#[cfg(test)]
mod at_hand;
#[cfg(test)]
mod letters;
#[cfg(test)]
mod on_workers;
#[cfg(test)]
mod streams;
