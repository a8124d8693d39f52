ghost use Rattle.std.specs.Prelude.{◌≡◌, ◌≤◌, length};
ghost use Rattle.texts.specs.Lines.{row};
ghost use Rattle.texts.specs.Cards.{workers_of, first_foreign};
ghost use Rattle.texts.specs.Workers.{row_or, kept_all_or};

use crate::fault::Bad;
use crate::fields::Fields;
use crate::number::LARGEST;
use arrayvec::ArrayVec;

// How many workers are kept: one more than a frame can have.
const MOST: usize = 65;

// The workers that all fields name, as far as they are kept. The leftmost field that is no number is bad.
pub(crate) fn named(mut fields: Fields<'_>) -> Result<ArrayVec<u8, MOST>, Bad>
    ensures { row_or result ≡ kept_all_or (workers_of (row fields.entry).taken (row fields.entry).left) }
{
    let mut workers = ArrayVec::new();
    while !fields.is_empty() {
        let worker = fields.number(0, LARGEST)?;
        let _ = workers.try_push(worker.min(255) as u8);
    }
    Ok(workers)
}

// The place of the first worker that is not below n; the row's length, if all are, as its definition says: it is asked
// only of a row that has such a worker.
pub(crate) fn first_foreign(n: u8, row: &[u8]) -> usize
    ensures value { result ≡ first_foreign n row.now }
    ensures bound { result ≤ length row.now }
{
    row.iter()
        .position(|worker| *worker >= n)
        .unwrap_or(row.len())
}
