//! Writing numbers in base ten: the writing of the tenth part, if that is not zero, and then the last digit.
ghost use Rattle.texts.specs.Numbers.{digits, Written};
ghost use Rattle.texts.specs.Texts.{Wrote};

use itoa::Buffer;

/// Writes the number from `place` on and answers the place behind it. Where it does not fit, nothing is written.
pub fn write_number(out: &mut [u8], place: usize, n: u64) -> Option<usize>
    ensures wrote { Wrote out.old out.new place (digits n) result }
    ensures rule { Written }
{
    let mut buffer = Buffer::new();
    let text = buffer.format(n).as_bytes();
    let end = place.checked_add(text.len())?;
    if end > out.len() {
        return None;
    }
    out[place..end].copy_from_slice(text);
    Some(end)
}
