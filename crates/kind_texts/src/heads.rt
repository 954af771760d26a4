//! The first lines of a text of one known header, read.

ghost use Rattle.std.specs.Prelude.{◌≡◌, ◌≤◌, IfOk, codes, length};
ghost use Rattle.text_lines.specs.Lines.{words_of, lines_of};
ghost use Rattle.cert_lines.specs.Forms.{seen};
ghost use Rattle.cert_lines.specs.HeadLines.{verdict_line};
ghost use Rattle.cert_lines.specs.declared.form.Form.TheVariants.{Second};
ghost use Rattle.cert_text.specs.Views.{place_view, HasRoom};
ghost use Rattle.cert_text.specs.Reading.{next_line};
ghost use Rattle.cert_text.specs.Whole.{link_mode_line, module_mode_line, modes_behind};
ghost use Rattle.kind_texts.specs.Heads.{header_at, run_head};

use cert_lines::{CertKind, CertRefusal, Form, is_fixed};
use cert_text::{Place, modes_behind, next_verdict, split};
use mcf_limits::MAX_CERT_BYTES;
use unit_scale::NetOptions;

// The header of a certificate with hop limits.
pub const HOPS: &[u8] = b"mcf-hops 1";

// The header of a certificate of a total.
pub const THROUGHPUT: &[u8] = b"mcf-throughput 1";

// The place behind the first line, which is to be this one.
#[tactic(auto, using(cert_text::proofs::LineSteps::has_line), unfolding(crate::specs::Heads::header_at))]
pub fn header_at<'a>(known: &[u8], text: &'a [u8]) -> Result<Place<'a>, CertRefusal>
    requires { length text.now ≤ MAX_CERT_BYTES }
    ensures exact { seen place_view result ≡ header_at known.now (lines_of text.now) }
    ensures room { IfOk result HasRoom }
{
    let (line, after) = match split(Place { at: 1, rest: text }) {
        Some((line, after)) => (line, Some(after)),
        None => (text, None),
    };
    if !is_fixed(known, line) {
        return Err(CertRefusal {
            line: 1,
            kind: CertKind::NoHeader,
        });
    }
    match after {
        Some(after) => Ok(after),
        None => Err(CertRefusal {
            line: 1,
            kind: CertKind::Syntax,
        }),
    }
}

// The options that lines 1 to 4 of a text of that header say.
#[tactic(auto, unfolding(crate::specs::Heads::run_head))]
fn run_head(known: &[u8], text: &[u8]) -> Result<NetOptions, CertRefusal>
    requires { length text.now ≤ MAX_CERT_BYTES }
    ensures { result ≡ run_head known.now (lines_of text.now) }
{
    let place = match header_at(known, text) {
        Ok(place) => place,
        Err(refusal) => return Err(refusal),
    };
    let (_, place) = match next_verdict(place) {
        Ok(read) => read,
        Err(refusal) => return Err(refusal),
    };
    match modes_behind(Form::Second, place) {
        Ok((modes, _)) => Ok(modes),
        Err(refusal) => Err(refusal),
    }
}

/// How links and modules are read in the text of a certificate with hop limits, from its lines 1 to 4; or the first of
/// them that has a fault. It takes no memory.
pub fn hops_head(text: &[u8]) -> Result<NetOptions, CertRefusal>
    requires { length text.now ≤ MAX_CERT_BYTES }
    ensures { result ≡ run_head (codes "mcf-hops 1") (lines_of text.now) }
{
    run_head(HOPS, text)
}

/// The same of the text of a certificate of a total. It takes no memory.
pub fn part_head(text: &[u8]) -> Result<NetOptions, CertRefusal>
    requires { length text.now ≤ MAX_CERT_BYTES }
    ensures { result ≡ run_head (codes "mcf-throughput 1") (lines_of text.now) }
{
    run_head(THROUGHPUT, text)
}
