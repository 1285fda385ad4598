// The check on good heaps, and on heaps with one thing wrong: for each clause of what sound means at least one damage, and as far as that
// can be had nothing else wrong. The check must refuse each, and accept the heap again once the words are put back.
#![tactic(auto)]

mod bench;
mod chunks;
mod sample;
mod small;
mod trees;

use crate::bench::Bench;
use crate::chunks::{counts, tilings};
use crate::small::small_bins;
use crate::trees::trees;
use std::io;

fn main(rt: HostRuntime) -> io::Result<()> {
    let mut bench = Bench::new();
    counts(&rt, &mut bench)?;
    tilings(&rt, &mut bench)?;
    small_bins(&rt, &mut bench)?;
    trees(&rt, &mut bench)?;
    println!(rt; "damages {}", bench.tried)?;
    println!(rt; "wrong {}", bench.wrong)
}
