// Reads lines of cable frames for a network and a device, and explains each.
#![tactic(auto)]

use anyhow::{Context, bail};
use expect::expected_from;
use explain::explain;
use frame::Address;
use std::env;
use std::io::{BufRead, BufReader, Write};
use std::process::ExitCode;
use text::{fill, frame_in};

mod expect;
mod explain;
mod lines;
mod opened;

const USAGE: &str =
    "give the network ID and the DID expected, in hexadecimal: inspect NETWORK DID < frames";

// What the two arguments behind the program's name tell.
fn expected(rt: &HostRuntime) -> anyhow::Result<Address> {
    let mut words = env::args(rt)?;
    let _program = words.next();
    let (Some(network), Some(did), None) = (words.next(), words.next(), words.next()) else {
        bail!("{USAGE}");
    };
    expected_from(network.as_bytes(), did.as_bytes()).context(USAGE)
}

fn run(rt: &HostRuntime) -> anyhow::Result<()> {
    let heap = rt.alloc();
    let expected = expected(rt)?;
    let mut input = BufReader::new(heap, rt.stdin())?;
    let mut output = rt.stdout();
    let mut line = Vec::new(heap);
    let mut text = String::new(heap);
    // Bounded, since a loop that waits for input has no measure. Not over `split`, which allocates each line anew, and whose
    // contract, of standard input, does not say that only the line's end is taken off, as that of `frame_in` does. It is the
    // loop of `bridge` too: shared, it would take a closure that reads and writes, and its own contract would promise nothing.
    for _ in 0..u64::MAX {
        line.clear();
        if input.read_until(b'\n', &mut line)? == 0 {
            break;
        }
        let explanation = explain(expected, frame_in(&line));
        // One write for a line.
        fill(&mut text, &explanation)?;
        output.write_all(text.as_bytes())?;
    }
    Ok(())
}

fn main(rt: HostRuntime) -> ExitCode {
    match run(&rt) {
        Ok(()) => ExitCode::SUCCESS,
        Err(error) => {
            let _ = eprintln!(rt; "inspect: {error}");
            ExitCode::FAILURE
        }
    }
}
