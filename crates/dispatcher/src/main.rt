// The program: reads `card.txt` and `sheet.txt` in its folder and prints the ledger's first line, or the one fault line
// where the card, the sheet's size or the sheet's first line is bad.
#![tactic(auto)]

mod head;

use head::head_line;
use ledger::output::Output;
use std::io::Write;
use std::{fs, io};

fn main(rt: HostRuntime) -> io::Result<()> {
    // an unreadable file counts as empty
    let card = fs::read(&rt, "card.txt").unwrap_or_else(|_| Vec::new(rt.alloc()));
    let sheet = fs::read(&rt, "sheet.txt").unwrap_or_else(|_| Vec::new(rt.alloc()));
    let mut out = [0u8; 65_536];
    let mut output = Output::over(&mut out);
    let _ = output.put(&head_line(card.as_slice(), sheet.as_slice()));
    let n = output.len();
    let mut stdout = rt.stdout();
    stdout.write_all(&out[..n])?;
    Ok(())
}
