//! Where reading stands in a text, and its lines one after the other.

ghost use Rattle.std.specs.Prelude.{◌≡◌, ◌+◌, ◌^◌, ◌<◌, ◌∷◌, [], codes, length, IfOk, MatchOption, IfSome};
ghost use Rattle.text_lines.specs.Lines.{words_of, lines_of};
ghost use Rattle.cert_lines.specs.declared.refusal.CertEnd.TheVariants.{Refused};
ghost use Rattle.cert_text.specs.Views.{place_view, HasRoom};
ghost use Rattle.cert_text.specs.Reading.{Gives, next_line, fixed_line, closing};

use cert_lines::{CertEnd, CertKind, CertRefusal, is_fixed};
use text_lines::split_line;

/// What is left of a text, and the number of its first line.
#[derive(Clone, Copy)]
pub struct Place<'a> {
    /// The number of the next line, from 1 on.
    pub at: u32,
    /// The bytes from that line on.
    pub rest: &'a [u8],
}

/// The refusal of that line.
pub fn refused(line: u32, kind: CertKind) -> CertEnd
    ensures { result ≡ Refused (record { line = line; kind = kind }) }
{
    CertEnd::Refused(CertRefusal { line, kind })
}

/// The first line, without its line feed, and the place behind it.
pub fn split<'a>(place: Place<'a>) -> Option<(&'a [u8], Place<'a>)>
    requires { HasRoom place }
    ensures lines { MatchOption result
        (lines_of place.entry.rest.now ≡ words_of place.entry.rest.now ∷ [])
        (λ x. lines_of place.entry.rest.now ≡ words_of x.0.now ∷ lines_of x.1.rest.now) }
    ensures at { IfSome result (λ x. x.1.at ≡ place.entry.at + 1) }
    ensures room { IfSome result (λ x. HasRoom x.1) }
    ensures shorter { IfSome result (λ x. length x.1.rest.now < length place.entry.rest.now) }
{
    match split_line(place.rest) {
        Some((line, rest)) => Some((
            line,
            Place {
                at: place.at + 1,
                rest,
            },
        )),
        None => None,
    }
}

/// The place behind a line that is to be this text.
#[tactic(auto, using(crate::proofs::LineSteps::has_line), unfolding(crate::specs::Reading::next_line))]
pub fn fixed<'a>(text: &[u8], place: Place<'a>) -> Result<Place<'a>, CertEnd>
    requires { HasRoom place }
    ensures exact { Gives (λ p. (tt, place_view p)) result
        (next_line (fixed_line text.now) (place_view place.entry)) }
    ensures room { IfOk result HasRoom }
{
    let (line, after) = match split(place) {
        Some(parts) => parts,
        None => return Err(refused(place.at, CertKind::Syntax)),
    };
    if is_fixed(text, line) {
        Ok(after)
    } else {
        Err(refused(place.at, CertKind::Syntax))
    }
}

const END: &[u8] = b"end";

/// The end, behind which nothing stands.
#[tactic(auto, using(crate::proofs::LineSteps::text_bytes), unfolding(crate::specs::Reading::closing))]
pub fn closing(place: Place<'_>) -> Result<(), CertEnd>
    requires { HasRoom place }
    ensures { Gives (λ x. x) result (closing (place_view place.entry)) }
{
    let after = match fixed(END, place) {
        Ok(after) => after,
        Err(end) => return Err(end),
    };
    if !after.rest.is_empty() {
        return Err(refused(after.at, CertKind::Syntax));
    }
    Ok(())
}
