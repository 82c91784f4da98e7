//! Comments.

ghost use Rattle.std.specs.Prelude.{◌≡◌, chars, option_map, false, None};
ghost use Rattle.ob_lex.specs.Closing.{MayClose};
ghost use Rattle.ob_lex.specs.Reading as spec;

use crate::characters::is_line_end;
use crate::scan::{after_line, strip};
use crate::splits::split_first;

/// The comment at the front of a text, as whether it holds a line end, and the rest. A block comment
/// is looked for only where the flag says that one may be closed.
#[tactic(auto, unfolding(crate::specs::Reading::comment_at))]
pub fn comment(closes: bool, text: &str) -> Option<(bool, &str)>
    requires { MayClose closes (chars text.now) }
    ensures { spec.comment_at (chars text.now) ≡ option_map (λ p. (p.0, chars p.1.now)) result }
{
    let (a, more) = split_first(text)?;
    let (b, after) = split_first(more)?;
    if a != '/' {
        None
    } else if b == '/' {
        Some((false, after_line(after)))
    } else if b == '*' {
        block(closes, after)
    } else {
        None
    }
}

fn block(closes: bool, after: &str) -> Option<(bool, &str)>
    requires { closes ≡ false → spec.to_close false (chars after.now) ≡ None }
    ensures { spec.to_close false (chars after.now) ≡ option_map (λ p. (p.0, chars p.1.now)) result }
{
    if closes { to_close(after) } else { None }
}

#[tactic(auto, unfolding(crate::specs::Reading::to_close))]
fn to_close(text: &str) -> Option<(bool, &str)>
    ensures { spec.to_close false (chars text.now) ≡ option_map (λ p. (p.0, chars p.1.now)) result }
{
    let mut breaks = false;
    let mut rest = text;
    while let Some((c, after)) = split_first(rest) {
        if let Some(behind) = strip(b"*/", rest) {
            return Some((breaks, behind));
        }
        breaks = breaks || is_line_end(c);
        rest = after;
    }
    None
}
