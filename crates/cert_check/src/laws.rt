//! Laws of certificates, each proved for all networks.

ghost use Rattle.flow_model.specs.Network.{Network};
ghost use Rattle.flow_paths.specs.declared.certificate.Proof.{Proof};
ghost use Rattle.flow_paths.specs.Certificate.{IsValid, IsCertified};

/// A valid certificate is sound: its routing is feasible at the lower fraction, its lengths bound the fraction of every feasible routing, and closed says whether the two lie within the gap.
pub fn valid_is_sound()
    ensures { (net : Network) (proof : Proof) → IsValid net proof → IsCertified net proof }
{}
