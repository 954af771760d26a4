//! The kind of a text, its form and its modes, from its first lines.

ghost use Rattle.std.specs.Prelude.{◌≡◌, ◌≤◌, ◌+◌, ◌^◌, ◌<◌, IfOk, length};
ghost use Rattle.text_lines.specs.Lines.{words_of, lines_of};
ghost use Rattle.cert_lines.specs.HeadLines.{verdict_line};
ghost use Rattle.cert_lines.specs.Forms.{seen};
ghost use Rattle.cert_text.specs.Views.{place_view, opened_view, HasRoom};
ghost use Rattle.cert_text.specs.Reading.{next_line};
ghost use Rattle.cert_text.specs.Papers.{known_form, header_by};
ghost use Rattle.cert_text.specs.Whole.{mode_in, link_mode_line, module_mode_line, verdict_at, modes_behind, opened_by};

use crate::place::{Place, split};
use cert_lines::{CertKind, CertRefusal, Form, is_fixed, one_behind, verdict_line};
use mcf_limits::MAX_CERT_BYTES;
use unit_scale::{
    LinkMode, ModuleMode, NetOptions, link_mode_of, module_mode_of, old_link_mode_of,
};

/// What a text is of: a certificate, or a routing alone.
#[derive(Clone, Copy, Debug, PartialEq, Eq)]
pub enum Kind {
    /// A routing with a bound.
    Certificate,
    /// A routing alone.
    Routing,
}

/// Which first lines are known.
#[derive(Clone, Copy, Debug, PartialEq, Eq)]
pub enum Known {
    /// Those of certificates and of routings.
    Both,
    /// Those of certificates alone.
    Certificates,
}

/// What a first line says.
#[derive(Clone, Copy, Debug, PartialEq, Eq)]
pub struct Opening {
    /// What the text is of.
    pub kind: Kind,
    /// How the text spells cells.
    pub form: Form,
}

/// The kind of a text, its form, and how links and modules are read.
#[derive(Clone, Copy, Debug, PartialEq, Eq)]
pub struct CertHead {
    /// What the text is of.
    pub kind: Kind,
    /// How it spells cells.
    pub form: Form,
    /// How links are read.
    pub links: LinkMode,
    /// What modules add to capacities.
    pub modules: ModuleMode,
}

/// A text whose first lines were read.
#[derive(Clone, Copy)]
pub struct Opened<'a> {
    /// What they say.
    pub head: CertHead,
    /// Whether its verdict is `closed`; a routing has none.
    pub closed: Option<bool>,
    /// Where its other lines are read from.
    pub rest: Place<'a>,
}

const OLD_CERTIFICATE: &[u8] = b"mcf-certificate 1";

const CERTIFICATE: &[u8] = b"mcf-certificate 2";

const OLD_ROUTING: &[u8] = b"mcf-routing 1";

const ROUTING: &[u8] = b"mcf-routing 2";

const LINKS: &[u8] = b"links";

const MODULES: &[u8] = b"modules";

// What the line says as a first line, where it is one of the four.
fn form_of(line: &[u8]) -> Option<Opening>
    ensures { result ≡ form_of (words_of line.now) }
{
    if is_fixed(OLD_CERTIFICATE, line) {
        return Some(Opening {
            kind: Kind::Certificate,
            form: Form::First,
        });
    }
    if is_fixed(CERTIFICATE, line) {
        return Some(Opening {
            kind: Kind::Certificate,
            form: Form::Second,
        });
    }
    if is_fixed(OLD_ROUTING, line) {
        return Some(Opening {
            kind: Kind::Routing,
            form: Form::First,
        });
    }
    if is_fixed(ROUTING, line) {
        return Some(Opening {
            kind: Kind::Routing,
            form: Form::Second,
        });
    }
    None
}

ghost use Rattle.cert_text.specs.Papers.{form_of};

// What the line says as a first line, where that is known.
fn known_form(known: Known, line: &[u8]) -> Option<Opening>
    ensures { result ≡ known_form known (form_of (words_of line.now)) }
{
    let form = form_of(line);
    match (known, form) {
        (
            Known::Certificates,
            Some(
                Opening {
                    kind: Kind::Routing,
                    ..
                },
            ),
        ) => None,
        _ => form,
    }
}

// What the first line of the text says, and the place behind it.
#[tactic(auto, using(crate::proofs::LineSteps::has_line), unfolding(crate::specs::Papers::header_by))]
fn header(known: Known, text: &[u8]) -> Result<(Opening, Place<'_>), CertRefusal>
    requires { length text.now ≤ MAX_CERT_BYTES }
    ensures exact { seen (λ x. (x.0, place_view x.1)) result ≡ header_by known (lines_of text.now) }
    ensures room { IfOk result (λ x. HasRoom x.1) }
{
    match split(Place { at: 1, rest: text }) {
        Some((line, after)) => match known_form(known, line) {
            Some(opening) => Ok((opening, after)),
            None => Err(CertRefusal {
                line: 1,
                kind: CertKind::NoHeader,
            }),
        },
        None => match known_form(known, text) {
            Some(_) => Err(CertRefusal {
                line: 1,
                kind: CertKind::Syntax,
            }),
            None => Err(CertRefusal {
                line: 1,
                kind: CertKind::NoHeader,
            }),
        },
    }
}

// The mode of which this is the word in that form.
fn mode_in(form: Form, word: &[u8]) -> Option<LinkMode>
    ensures { result ≡ mode_in form word.now }
{
    match form {
        Form::First => old_link_mode_of(word),
        Form::Second => link_mode_of(word),
    }
}

#[tactic(auto, unfolding(crate::specs::Whole::link_mode_line))]
fn link_mode_line(form: Form, line: &[u8]) -> Result<LinkMode, CertKind>
    ensures { result ≡ link_mode_line form (words_of line.now) }
{
    let word = match one_behind(LINKS, line) {
        Some(word) => word,
        None => return Err(CertKind::Syntax),
    };
    match mode_in(form, word) {
        Some(mode) => Ok(mode),
        None => Err(CertKind::Syntax),
    }
}

#[tactic(auto, unfolding(crate::specs::Whole::module_mode_line))]
fn module_mode_line(line: &[u8]) -> Result<ModuleMode, CertKind>
    ensures { result ≡ module_mode_line (words_of line.now) }
{
    let word = match one_behind(MODULES, line) {
        Some(word) => word,
        None => return Err(CertKind::Syntax),
    };
    match module_mode_of(word) {
        Some(mode) => Ok(mode),
        None => Err(CertKind::Syntax),
    }
}

// How links are read, and the place behind that line.
#[tactic(auto, using(crate::proofs::LineSteps::has_line), unfolding(crate::specs::Reading::next_line))]
fn next_links(form: Form, place: Place<'_>) -> Result<(LinkMode, Place<'_>), CertRefusal>
    requires { HasRoom place }
    ensures exact { seen (λ x. (x.0, place_view x.1)) result
        ≡ next_line (link_mode_line form) (place_view place.entry) }
    ensures room { IfOk result (λ x. HasRoom x.1) }
{
    let (line, after) = match split(place) {
        Some(parts) => parts,
        None => {
            return Err(CertRefusal {
                line: place.at,
                kind: CertKind::Syntax,
            });
        }
    };
    match link_mode_line(form, line) {
        Ok(mode) => Ok((mode, after)),
        Err(kind) => Err(CertRefusal {
            line: place.at,
            kind,
        }),
    }
}

// How modules are read, and the place behind that line.
#[tactic(auto, using(crate::proofs::LineSteps::has_line), unfolding(crate::specs::Reading::next_line))]
fn next_modules(place: Place<'_>) -> Result<(ModuleMode, Place<'_>), CertRefusal>
    requires { HasRoom place }
    ensures exact { seen (λ x. (x.0, place_view x.1)) result
        ≡ next_line module_mode_line (place_view place.entry) }
    ensures room { IfOk result (λ x. HasRoom x.1) }
{
    let (line, after) = match split(place) {
        Some(parts) => parts,
        None => {
            return Err(CertRefusal {
                line: place.at,
                kind: CertKind::Syntax,
            });
        }
    };
    match module_mode_line(line) {
        Ok(mode) => Ok((mode, after)),
        Err(kind) => Err(CertRefusal {
            line: place.at,
            kind,
        }),
    }
}

/// Whether the verdict is closed, and the place behind that line; or the line's fault.
#[tactic(auto, using(crate::proofs::LineSteps::has_line), unfolding(crate::specs::Reading::next_line))]
pub fn next_verdict(place: Place<'_>) -> Result<(bool, Place<'_>), CertRefusal>
    requires { HasRoom place }
    ensures exact { seen (λ x. (x.0, place_view x.1)) result
        ≡ next_line verdict_line (place_view place.entry) }
    ensures room { IfOk result (λ x. HasRoom x.1) }
{
    let (line, after) = match split(place) {
        Some(parts) => parts,
        None => {
            return Err(CertRefusal {
                line: place.at,
                kind: CertKind::Syntax,
            });
        }
    };
    match verdict_line(line) {
        Ok(closed) => Ok((closed, after)),
        Err(kind) => Err(CertRefusal {
            line: place.at,
            kind,
        }),
    }
}

// The verdict, where there is one, and the place behind it.
#[tactic(auto, unfolding(crate::specs::Whole::verdict_at))]
fn verdict_at(kind: Kind, place: Place<'_>) -> Result<(Option<bool>, Place<'_>), CertRefusal>
    requires { HasRoom place }
    ensures exact { seen (λ x. (x.0, place_view x.1)) result ≡ verdict_at kind (place_view place.entry) }
    ensures room { IfOk result (λ x. HasRoom x.1) }
{
    match kind {
        Kind::Routing => Ok((None, place)),
        Kind::Certificate => match next_verdict(place) {
            Ok((closed, after)) => Ok((Some(closed), after)),
            Err(refusal) => Err(refusal),
        },
    }
}

/// How links and modules are read, in the words of that form, and the place behind both lines; or the first fault.
#[tactic(auto, unfolding(crate::specs::Whole::modes_behind))]
pub fn modes_behind(form: Form, place: Place<'_>) -> Result<(NetOptions, Place<'_>), CertRefusal>
    requires { HasRoom place }
    ensures exact { seen (λ x. (x.0, place_view x.1)) result ≡ modes_behind form (place_view place.entry) }
    ensures room { IfOk result (λ x. HasRoom x.1) }
{
    let (links, place) = match next_links(form, place) {
        Ok(read) => read,
        Err(refusal) => return Err(refusal),
    };
    match next_modules(place) {
        Ok((modules, place)) => Ok((NetOptions { links, modules }, place)),
        Err(refusal) => Err(refusal),
    }
}

/// Opens a text: its kind, its form and its modes, from lines 1 to 4 of a certificate or 1 to 3 of a
/// routing, the verdict, and where the other lines are read from. Else the first of these lines that
/// has a fault; a header that is not among the known ones is none.
#[tactic(auto, unfolding(crate::specs::Whole::opened_by))]
pub fn open(known: Known, text: &[u8]) -> Result<Opened<'_>, CertRefusal>
    requires { length text.now ≤ MAX_CERT_BYTES }
    ensures exact { seen opened_view result ≡ opened_by known (lines_of text.now) }
    ensures room { IfOk result (λ o. HasRoom o.rest) }
{
    let (opening, place) = match header(known, text) {
        Ok(first) => first,
        Err(refusal) => return Err(refusal),
    };
    let (closed, place) = match verdict_at(opening.kind, place) {
        Ok(read) => read,
        Err(refusal) => return Err(refusal),
    };
    match modes_behind(opening.form, place) {
        Ok((modes, rest)) => Ok(Opened {
            head: CertHead {
                kind: opening.kind,
                form: opening.form,
                links: modes.links,
                modules: modes.modules,
            },
            closed,
            rest,
        }),
        Err(refusal) => Err(refusal),
    }
}
