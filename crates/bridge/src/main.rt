// Reads lines of cable frames and prints the radio frame of each, or why it is refused.
#![tactic(auto)]

use answer::answer_to;
use line::Radio;
use std::io;
use std::io::{BufRead, BufReader, Write};
use tally::Tally;
use text::{fill, frame_in};

mod answer;
mod tally;

fn main(rt: HostRuntime) -> io::Result<()> {
    let heap = rt.alloc();
    let radio = Radio::new();
    let mut input = BufReader::new(heap, rt.stdin())?;
    let mut output = rt.stdout();
    let mut line = Vec::new(heap);
    let mut text = String::new(heap);
    let mut tally = Tally::default();
    // Bounded, since a loop that waits for input has no measure. Not over `split`, which allocates each line anew, and whose
    // contract, of standard input, does not say that only the line's end is taken off, as that of `frame_in` does. It is the
    // loop of `inspect` too: shared, it would take a closure that reads and writes, and its own contract would promise nothing.
    for _ in 0..u64::MAX {
        line.clear();
        if input.read_until(b'\n', &mut line)? == 0 {
            break;
        }
        let answer = answer_to(heap, &radio, frame_in(&line))?;
        tally = tally.count(answer.carried());
        // One write for a line. A `LineWriter` in front of the output makes it one too, but the program takes twice as long.
        fill(&mut text, &answer)?;
        output.write_all(text.as_bytes())?;
    }
    println!(rt; "{tally}")
}
