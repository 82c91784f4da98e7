//! The search for a piece in a text.
ghost use Rattle.std.specs.Prelude.{◌≡◌, ◌+◌, ◌≤◌, IfOk, IfSome, length};
ghost use Rattle.ob_values.specs.TextMethods.{first_place};
ghost use Rattle.ob_text_methods.specs.Search.{AreShifts};

use ob_base::NoMemory;
use std::alloc::Global;

/// How far the search for a piece may move on where so many of its units stand and the next doesn't
/// (the table of Knuth, Morris and Pratt), in time linear in the piece.
///
/// # Errors
/// `NoMemory` where an allocation is refused.
pub fn shifts(alloc: Global, piece: &[u16]) -> Result<Vec<usize>, NoMemory>
    ensures shifts { IfOk result (λ shifts. AreShifts piece.now shifts.items) }
    ensures enough { IfOk result (λ shifts. length piece.now ≤ length shifts.items) }
{
    let mut shifts = Vec::with_capacity(alloc, piece.len() + 2)?;
    shifts.push(1)?;
    shifts.push(1)?;
    let mut start = 1;
    let mut matched = 0;
    while start + matched < piece.len() {
        if piece[start + matched] == piece[matched] {
            matched += 1;
            shifts.push(start)?;
        } else if matched == 0 {
            start += 1;
            shifts.push(start)?;
        } else {
            let shift = shifts[matched];
            start += shift;
            matched -= shift;
        }
    }
    Ok(shifts)
}

/// The first place at which a piece stands in a text, from 0; none where it stands nowhere. It takes
/// at most two steps for each unit of the text up to the piece's end, whatever the piece.
pub fn place_of(units: &[u16], piece: &[u16], shifts: &[usize]) -> Option<usize>
    requires shifts { AreShifts piece.now shifts.now }
    requires enough { length piece.now ≤ length shifts.now }
    ensures place { result ≡ first_place units.now piece.now }
    ensures within { IfSome result (λ place. place + length piece.now ≤ length units.now) }
{
    let mut start = 0;
    let mut matched = 0;
    while start + piece.len() <= units.len() {
        if matched == piece.len() {
            return Some(start);
        }
        if units[start + matched] == piece[matched] {
            matched += 1;
        } else {
            let shift = shifts[matched];
            start += shift;
            matched = matched.saturating_sub(shift);
        }
    }
    None
}
