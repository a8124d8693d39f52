// Reads the texts of `table.txt` and compares what each gives with what the table says. Each row has a text's name, the
// text and the outcome, parted by blanks and written in stand-ins (`stand_in.rt`); a line that begins with `-` names
// the rule that the next rows are about.
#![tactic(auto)]

mod outcome;
mod shown;
mod stand_in;

use outcome::{CardOutcome, SheetOutcome};
use stand_in::expanded;
use std::{fs, io};

fn main(rt: HostRuntime) -> io::Result<()> {
    let heap = rt.alloc();
    let table = fs::read_to_string(&rt, "table.txt")?;
    let mut rows = 0u32;
    let mut wrong = 0u32;
    for row in table.as_str().lines() {
        let mut parts = row.split(' ');
        let (Some(name), Some(text), Some(says)) = (parts.next(), parts.next(), parts.next()) else {
            continue;
        };
        if name == "-" {
            continue;
        }
        let text = expanded(heap, text.as_bytes())?;
        let text = text.as_slice();
        let gives = if name == "card" {
            format!(in heap; "{}", CardOutcome(text))?
        } else {
            format!(in heap; "{}", SheetOutcome(text))?
        };
        let gives = expanded(heap, gives.as_bytes())?;
        let says = expanded(heap, says.as_bytes())?;
        rows = rows.saturating_add(1);
        if gives.as_slice() != says.as_slice() {
            wrong = wrong.saturating_add(1);
            println!(rt; "not as the table says: {row}")?;
        }
    }
    println!(rt; "{rows} texts read, {wrong} not as the table says")
}
