// Lists of numbers, each after one blank.
ghost use Rattle.std.specs.Prelude.{◌≡◌, ◌≤◌, length};
ghost use Rattle.grammar.specs.Reading.{naturals_front, integers_in};
ghost use Rattle.std.specs.Option.{option_map};

use crate::number::{integer, natural};
use arrayvec::ArrayVec;

/// The numbers of a line after its first word, at most.
pub(crate) const MAX_NUMBERS: usize = 512;

// Fills the table with numbers from the front of `text`; the answer is the text after them.
pub(crate) fn naturals<'a>(text: &'a [u8], table: &mut [u32]) -> Option<&'a [u8]>
    ensures { option_map (λ rest. (table.new, rest.now)) result ≡ naturals_front (length table.old) text.now }
{
    let mut rest = text;
    for slot in table.iter_mut() {
        (*slot, rest) = natural(rest)?;
    }
    Some(rest)
}

// The numbers up to the end of `text`, at most as many as there is room for.
pub(crate) fn integers<'a>(
    text: &[u8],
    room: usize,
    table: &'a mut ArrayVec<i32, MAX_NUMBERS>,
) -> Option<&'a [i32]>
    requires { room ≤ 512 }
    ensures { option_map (λ x. x.now) result ≡ integers_in room text.now }
{
    table.clear();
    let mut rest = text;
    while !rest.is_empty() {
        if table.len() == room {
            return None;
        }
        let (number, after) = integer(rest)?;
        table.push(number);
        rest = after;
    }
    Some(table.as_slice())
}
