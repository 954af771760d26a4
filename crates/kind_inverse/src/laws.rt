//! Laws of both texts, each proved for all names, all texts and all certificates.

ghost use Rattle.kind_inverse.specs.Inverse.{HopsAreRead, HopTextsAreUnique, PartsAreRead, PartTextsAreUnique};
ghost use Rattle.kind_inverse.specs.OfNetwork.{HopsAreOfTheNetwork, PartsAreOfTheNetwork};

/// A text is read as a certificate with hop limits exactly where it is that certificate's text, and the certificate is
/// within the limits. So what is written is read back as the same, and what is read was written so.
pub fn hops_are_read()
    ensures { HopsAreRead }
{}

/// Two certificates with hop limits that have one text are equal.
pub fn hop_texts_are_unique()
    ensures { HopTextsAreUnique }
{}

/// A text is read as a certificate of a total exactly where it is that certificate's text, and the certificate is within
/// the limits. So what is written is read back as the same, and what is read was written so.
pub fn parts_are_read()
    ensures { PartsAreRead }
{}

/// Two certificates of a total that have one text are equal.
pub fn part_texts_are_unique()
    ensures { PartTextsAreUnique }
{}

/// A certificate with hop limits that fits the text of a network is of that network, as checking it needs.
pub fn hops_are_of_the_network()
    ensures { HopsAreOfTheNetwork }
{}

/// A certificate of a total that fits the text of a network is of that network, as checking it needs.
pub fn parts_are_of_the_network()
    ensures { PartsAreOfTheNetwork }
{}
