// The public call.
ghost use Rattle.limits.specs.Refusal.{answer_number};
ghost use Rattle.text.specs.Call.{Outcome, length_of};

use crate::count::measure;
use crate::write::write_list;
use limits::{CODES_MAX, Refusal};

// Writes the text of the list at the start of out, and answers its length. 10: the codes are no whole number of
// well-formed types, or more than 8,192. 11: the text does not fit. The length is known before the first byte is
// written, so a refusal changes nothing.
pub fn text(codes: &[u16], out: &mut [u8]) -> Result<usize, Refusal>
    ensures { Outcome codes.now out.old (answer_number result) (length_of result) out.new }
{
    if CODES_MAX < codes.len() {
        return Err(Refusal::BadTypes);
    }
    let Some(length) = measure(codes) else {
        return Err(Refusal::BadTypes);
    };
    if out.len() < length {
        return Err(Refusal::ShortText);
    }
    write_list(codes, out);
    Ok(length)
}
