//! The program `lid`: latency-insensitive design of netlists in BLIF (Berkeley Logic Interchange Format).
//!
//! `lid check NET` prints the nodes and channels of a netlist that is accepted, `lid strict NET VEC` its
//! strict outputs for rows of input bits, `lid clock NET VEC` those of the wrapped design with its cycles,
//! `lid walk NET VEC --schedule FILE` what its actors answer step by step, `lid wave NET VEC --trace K` what
//! its stations show as a value change dump, `lid unwave FILE` what a dump shows, `lid place NET --wires FILE
//! --reach L` the relay stations that long wires need, `lid rate NET` a certificate of the throughput,
//! `lid verify NET CERT` what a certificate shows, `lid slack NET` how many relay stations more each channel
//! takes, `lid size NET` which capacities stations need, `lid free NET VEC` the outputs by free-running
//! threads, `lid emit NET` the wrapped design as a netlist, and `lid gen SEED --shells M` a netlist made from a
//! seed.
#![tactic(auto)]

#[cfg(test)]
mod check_tests;
#[cfg(test)]
mod clock_tests;
#[cfg(test)]
mod device_tests;
#[cfg(test)]
mod emit_tests;
#[cfg(test)]
mod free_tests;
#[cfg(test)]
mod margin_tests;
#[cfg(test)]
mod net_tests;
#[cfg(test)]
mod rate_tests;
#[cfg(test)]
mod report_tests;
#[cfg(test)]
mod run_tests;
#[cfg(test)]
mod stall_tests;
#[cfg(test)]
mod stops_tests;
#[cfg(test)]
mod tests;
#[cfg(test)]
mod worker_tests;

use lid_base::{DirShelf, StdSink, Text};
use lid_top::run_program;
use std::env::Env;
use std::process::ExitCode;
use std::{env, io};

/// The words after the program's name.
fn words_of(rt: &(impl Env + AllocGlobal)) -> io::Result<Vec<Text>> {
    let mut words = Vec::new(rt.alloc());
    for word in env::args(rt)?.skip(1) {
        words.push(Text::new(word))?;
    }
    Ok(words)
}

fn main(rt: HostRuntime) -> ExitCode {
    let mut out = StdSink::new(rt.stdout());
    let mut err = StdSink::new(rt.stderr());
    run_program(
        &rt,
        words_of(&rt),
        &mut DirShelf::new(&rt),
        &mut out,
        &mut err,
    )
}
