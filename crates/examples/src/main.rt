//! Three programs over `jaywardrobe` alone, one after the other: a broker of descriptors, the
//! system calls of a kernel, and an audit. The module of each is a program but for its `main`.
#![tactic(auto)]

mod audit;
mod broker;
mod kernel;

use std::io;

fn main(rt: HostRuntime) -> io::Result<()> {
    println!(rt; "== broker")?;
    broker::run(&rt)?;
    println!(rt; "== kernel")?;
    kernel::run(&rt)?;
    println!(rt; "== audit")?;
    audit::run(&rt)
}
