//! How the crates are used by a program of one's own, each way in a file of its own:
//!
//! - `reading`: reads a text of one's own, and prints the object
//! - `folder`: a store over a folder of the file system
//! - `function`: a macro function of one's own, and a session that uses it
#![tactic(auto)]

mod folder;
mod function;
mod reading;

use anyhow::Result;
use std::io::Write;

fn main(rt: HostRuntime) -> Result<()> {
    let mut output = rt.stdout();
    let read = reading::read_and_print(rt.alloc(), b"(LIST \"text\" #xFF . 1/2) and more")?;
    output.write_all(read.as_slice())?;
    output.write_all(b"\n")?;
    let number = folder::next_number(&rt, "numbers")?;
    println!(rt; "{number}")?;
    function::serve_doubled(rt.alloc(), &mut output)?;
    Ok(())
}
