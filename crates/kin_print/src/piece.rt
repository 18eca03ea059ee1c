//! Pieces of text, and numbers.

ghost use Rattle.std.specs.Prelude.{◌≡◌, ◌++◌, OnOk, OnErr};
ghost use Rattle.kin_script.specs.Printed.{PutsFront};
ghost use Rattle.kin_print.specs.Pieces.{joined};

use itoa::{Buffer, Integer};
use kin_num::NoMemory;

/// Appends bytes, or on want of memory nothing.
pub fn put_bytes(out: &mut Vec<u8>, bytes: &[u8]) -> Result<(), NoMemory>
    ensures ok { OnOk result (out.new.items ≡ out.old.items ++ bytes.now) }
    ensures err { OnErr result (out.new.items ≡ out.old.items) }
{
    out.extend_from_slice(bytes)?;
    Ok(())
}

/// Appends pieces, one after the other.
pub fn put_pieces(out: &mut Vec<u8>, pieces: &[&[u8]]) -> Result<(), NoMemory>
    ensures ok { OnOk result (out.new.items ≡ out.old.items ++ joined pieces.now) }
    ensures err { OnErr result (PutsFront out.old.items out.new.items (joined pieces.now)) }
{
    for piece in pieces {
        put_bytes(out, piece)?;
    }
    Ok(())
}

/// The decimal digits of a number, after a minus where it is negative.
pub(crate) fn digits<I: Integer>(buffer: &mut Buffer, n: I) -> &[u8]
    ensures { result.now ≡ I.text n }
{
    buffer.format(n).as_bytes()
}

/// Appends a number in decimal digits, or on want of memory nothing.
pub fn put_number<I: Integer>(out: &mut Vec<u8>, n: I) -> Result<(), NoMemory>
    ensures ok { OnOk result (out.new.items ≡ out.old.items ++ I.text n) }
    ensures err { OnErr result (out.new.items ≡ out.old.items) }
{
    let mut buffer = Buffer::new();
    put_bytes(out, buffer.format(n).as_bytes())
}
