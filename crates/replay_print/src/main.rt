// The printing program on stored tapes: one that ends a byte beyond a page of 4,096 bytes, the same without
// that byte, one of 60,000 bytes, and one that is a byte too long; and tapes with parities at halves of a
// millionth and beside them. The README.md says how they were made.

#![tactic(auto)]

use printing::print_from;
use std::rt::Files;
use std::{fs, io};

const TAPES: [&str; 20] = [
    "cut.bin",
    "long.bin",
    "most.bin",
    "over.bin",
    "half_1.bin",
    "half_3.bin",
    "half_5.bin",
    "half_9.bin",
    "half_61.bin",
    "half_63.bin",
    "half_65.bin",
    "half_127.bin",
    "half_near_0.bin",
    "half_near_1.bin",
    "half_near_499999.bin",
    "half_near_999998.bin",
    "half_lost_more1.bin",
    "half_lost_less1.bin",
    "half_lost_more15.bin",
    "half_lost_less15.bin",
];

fn replay(rt: &(impl Files + Print + Eprint), path: &str) -> io::Result<()> {
    match fs::open(rt, path) {
        Ok(mut tape) => {
            println!(rt; "{path}")?;
            print_from(&mut tape, &mut io::writer(rt))
        }
        Err(reason) => eprintln!(rt; "{path}: {reason}"),
    }
}

fn main(rt: HostRuntime) -> io::Result<()> {
    for path in &TAPES {
        replay(&rt, path)?;
    }
    Ok(())
}
