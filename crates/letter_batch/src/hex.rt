//! Bytes in hexadecimal, in small letters alone: the toolchain's `hex` would take capitals too, and so answer other lines.
ghost use Rattle.std.specs.Prelude.{◌≡◌, IfOk, vec_items};
ghost use Rattle.std.specs.Option.{option_map};
ghost use Rattle.letter_batch.specs.Hex.{digit_of, unhex};

use std::alloc::{AllocError, Global};

/// The bytes that a line stands for, or nothing where it is not hexadecimal. Fails only for want of memory.
pub fn decode(heap: Global, line: &[u8]) -> Result<Option<Vec<u8>>, AllocError>
    ensures { IfOk result (λ o. option_map vec_items o ≡ unhex line.now) }
{
    let mut bytes = Vec::new(heap);
    let mut rest = line;
    while let [high, low, more @ ..] = rest {
        let (Some(high), Some(low)) = (digit(*high), digit(*low)) else {
            return Ok(None);
        };
        bytes.push(16 * high + low)?;
        rest = more;
    }
    if rest.is_empty() {
        Ok(Some(bytes))
    } else {
        Ok(None)
    }
}

/// The value of a digit, 0 to 9 or a to f.
fn digit(c: u8) -> Option<u8>
    ensures { result ≡ digit_of c }
{
    match c {
        b'0'..=b'9' => Some(c - b'0'),
        b'a'..=b'f' => Some(c - b'a' + 10),
        _ => None,
    }
}
