ghost use Rattle.std.specs.Prelude.{◌≡◌, ◌+◌, ◌^◌, ◌<◌, ◌≤◌, length, IsOk};
ghost use Rattle.std.specs.Option.{MatchOption};
ghost use Rattle.texts.specs.Elements.{bundle_of};
ghost use Rattle.texts.specs.Places.{after_line, opening};
ghost use Rattle.texts.specs.Sheets.{sheet_line_at};
ghost use Rattle.texts.specs.declared.fault.TextName.{TextName};

use texts::reader::Reader;
use vocabulary::bundle::Bundle;

// Of any reader, whatever was called before: it is a theorem, and what it ensures is all.
pub fn reader_stands(reader: &Reader<'_>)
    ensures within { reader.now.place.start ≤ reader.now.place.total }
    ensures left { length reader.now.place.rest + reader.now.place.start ≡ reader.now.place.total }
    ensures counted { reader.now.place.lines ≤ reader.now.place.start }
    ensures bounded { reader.now.place.total < 2 ^ 63 }
{
    let _ = reader;
}

// The number of the line after the next one, if that is bad. No text has more lines than bytes, so this is a usize.
pub fn line_after_bad(reader: &mut Reader<'_>) -> Option<usize>
    ensures answer { MatchOption result (IsOk (sheet_line_at bundle_of reader.old.place)) (λ n. n ≡ reader.old.place.lines + 2) }
    ensures after { reader.new.place ≡ after_line reader.old.place }
{
    let fault = reader.next_line::<Bundle>().err()?;
    Some(fault.line + 1)
}

// A sheet begun twice: both readers stand before its first line, and so the same.
pub fn begun_twice(text: &[u8]) -> (Reader<'_>, Reader<'_>)
    ensures begun { result.0.place ≡ opening TextName.Sheet text.entry }
    ensures alike { result.0 ≡ result.1 }
{
    (Reader::sheet(text), Reader::sheet(text))
}
