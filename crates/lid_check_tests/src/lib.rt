//! Tests of what is made of a netlist: sets of names, uses of models, counts, conditions, columns,
//! acceptance and strict runs. Netlists are BLIF texts; what is expected was worked by hand.
#![tactic(auto)]

#[cfg(test)]
mod check;
#[cfg(test)]
mod columns;
#[cfg(test)]
mod counts;
#[cfg(test)]
mod models;
#[cfg(test)]
mod names;
#[cfg(test)]
mod rules;
#[cfg(test)]
mod strict;
#[cfg(test)]
mod told;
