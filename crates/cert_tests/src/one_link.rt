//! The network of one link with a certificate and a routing for it, and texts with one part replaced.

use std::alloc::{AllocError, Global};

/// A link of 10 and a demand of 4 over it.
pub const ONE_LINK: &[u8] =
    b"?SNDlib native format; type: network; version: 1.0\nNODES (\n  A\n  B\n)\nLINKS (\n  L1 ( A B ) 10 0 0 0 ( )\n)\nDEMANDS (\n  D1 ( A B ) 1 4 UNLIMITED\n)\n";

/// A certificate for it, in form 1.
pub const CERTIFICATE: &[u8] =
    b"mcf-certificate 1\nverdict closed\nlinks directed\nmodules largest\nnet nodes 2 cells 1 commodities 1 decimals 0 skipped 0 left 0 hops 0\ngap 0.050000\nphases 1\nscale 10 4\nlower 10/4 2.500000\nupper 45035996273704960/18014398509481984 2.500000\npath D1 4 L1\nlength L1 4503599627370496\npotential A 0 4503599627370496\nend\n";

/// The same certificate in form 2, as `solve` and `upgrade` write it.
pub const SIGNED: &[u8] =
    b"mcf-certificate 2\nverdict closed\nlinks directed\nmodules largest\nnet nodes 2 cells 1 commodities 1 decimals 0 skipped 0 left 0 hops 0\ngap 0.050000\nphases 1\nscale 10 4\nlower 10/4 2.500000\nupper 45035996273704960/18014398509481984 2.500000\npath D1 4 +L1\nlength +L1 4503599627370496\npotential A 0 4503599627370496\nend\n";

/// What is said of the certificate, in either form.
pub const VALID: &[u8] =
    b"valid closed directed largest lower 10/4 2.500000 upper 45035996273704960/18014398509481984 2.500000\n";

/// A routing for it, in form 1.
pub const ROUTING: &[u8] =
    b"mcf-routing 1\nlinks directed\nmodules none\nphases 1\nscale 10 4\npath D1 4 L1\nend\n";

/// The same routing in form 2.
pub const SIGNED_ROUTING: &[u8] =
    b"mcf-routing 2\nlinks directed\nmodules none\nphases 1\nscale 10 4\npath D1 4 +L1\nend\n";

/// The text with the first such part replaced; an empty part stands in front.
pub fn edited(alloc: Global, text: &[u8], part: &[u8], by: &[u8]) -> Result<Vec<u8>, AllocError> {
    for i in 0..text.len() {
        let (front, rest) = text.split_at(i);
        if let Some(after) = rest.strip_prefix(part) {
            let mut changed = Vec::from_slice(alloc, front)?;
            changed.extend_from_slice(by)?;
            changed.extend_from_slice(after)?;
            return Ok(changed);
        }
    }
    Vec::from_slice(alloc, text)
}

/// The bytes, `times` times one behind the other.
pub fn repeated(alloc: Global, bytes: &[u8], times: u32) -> Result<Vec<u8>, AllocError> {
    let mut text = Vec::new(alloc);
    for _ in 0..times {
        text.extend_from_slice(bytes)?;
    }
    Ok(text)
}
