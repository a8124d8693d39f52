ghost use Rattle.std.specs.Prelude.{◌≡◌, ◌++◌, IfOk, OnOk};
ghost use Rattle.std.specs.List.{flat_map};
ghost use Rattle.texts_test.specs.StandIns.{byte_for, bytes_for};

use std::alloc::{AllocError, Global};

// The byte that a byte of the table stands for: `>` for a tab, `;` for byte 10, `@` for byte 0, `%` for byte 13, `$`
// for byte 255, `_` for a blank, any other for itself.
fn byte_for(b: u8) -> u8
    ensures { result ≡ byte_for b }
{
    match b {
        b'>' => b'\t',
        b';' => b'\n',
        b'@' => b'\0',
        b'%' => b'\r',
        b'$' => 0xff,
        b'_' => b' ',
        _ => b,
    }
}

// Sixteen lines of a sheet, 128 bytes.
const LINES: &[u8] =
    b"fetch\t0\nfetch\t0\nfetch\t0\nfetch\t0\nfetch\t0\nfetch\t0\nfetch\t0\nfetch\t0\n\
fetch\t0\nfetch\t0\nfetch\t0\nfetch\t0\nfetch\t0\nfetch\t0\nfetch\t0\nfetch\t0\n";

// Adds the bytes that a byte of the table stands for: 4,096 bytes `x` for `#`, sixteen lines `fetch 0` for `*`, none
// for `~`, one for any other.
fn add_for(out: &mut Vec<u8>, b: u8) -> Result<(), AllocError>
    ensures { OnOk result (out.new.items ≡ out.old.items ++ bytes_for b) }
{
    match b {
        b'#' => out.extend_from_slice(&[b'x'; 4096])?,
        b'*' => out.extend_from_slice(LINES)?,
        b'~' => (),
        _ => out.push(byte_for(b))?,
    }
    Ok(())
}

// The bytes that a part of a row stands for.
pub(crate) fn expanded(heap: Global, part: &[u8]) -> Result<Vec<u8>, AllocError>
    ensures { IfOk result (λ v. v.items ≡ flat_map bytes_for part.now) }
{
    let mut out = Vec::new(heap);
    for b in part {
        add_for(&mut out, *b)?;
    }
    Ok(out)
}
