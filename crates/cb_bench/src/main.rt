//! Builds diagrams and tells how many nodes were made and how long it took. The words are the name of what is built,
//! `adder`, `deep`, `multiplier` or `queens`, and its size; with no words it does nothing.
#![tactic(auto)]

mod adder;
mod deep;
mod multiplier;
mod queens;

use cb_dd::Stop;
use cb_ops::Ops;
use cb_trial::checked::end;
use std::test::Fail;
use std::time::Instant;
use std::{env, io};

fn main(rt: HostRuntime) -> Result<(), Fail> {
    let mut words = env::args(&rt)?.skip(1);
    let (Some(name), Some(size)) = (words.next(), words.next()) else {
        return Ok(());
    };
    let size = size.as_str().parse::<u32>().unwrap_or(0);
    run(&rt, name.as_str(), size)
}

fn run(rt: &HostRuntime, name: &str, size: u32) -> Result<(), Fail> {
    let mut ops = Ops::new(rt.alloc(), usize::MAX)?;
    let told = run_over(rt, &mut ops, name, size);
    end(ops);
    told
}

// The same in a store that is lent.
fn run_over(rt: &HostRuntime, ops: &mut Ops, name: &str, size: u32) -> Result<(), Fail> {
    let since = Instant::now(rt)?;
    build(rt, ops, name, size)?;
    report(rt, name, size, since, ops.count())?;
    Ok(())
}

fn build(rt: &HostRuntime, ops: &mut Ops, name: &str, size: u32) -> Result<(), Stop> {
    if name == "multiplier" {
        return multiplier::build(rt.alloc(), ops, size);
    }
    if name == "queens" {
        queens::build(ops, size)?;
        return Ok(());
    }
    if name == "deep" {
        return deep::build(ops, size);
    }
    adder::build(ops, size)?;
    Ok(())
}

fn report(rt: &HostRuntime, name: &str, size: u32, since: Instant, nodes: usize) -> io::Result<()> {
    let micros = since.elapsed(rt)?.as_micros().min(1_000_000_000_000) as u64;
    let rate = (nodes as u64).saturating_mul(1_000_000) / micros.max(1);
    println!(rt; "{name} {size}: {nodes} nodes, {micros} us, {rate} nodes a second")
}
