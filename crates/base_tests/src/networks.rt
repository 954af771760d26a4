//! Other small networks, and certificates and routings for some.

/// A link of 10 and a demand of 5 each way.
pub const BOTH_WAYS: &[u8] =
    b"?SNDlib native format; type: network; version: 1.0\nNODES (\n  A\n  B\n)\nLINKS (\n  L1 ( A B ) 10 0 0 0 ( )\n)\nDEMANDS (\n  D1 ( A B ) 1 5 UNLIMITED\n  D2 ( B A ) 1 5 UNLIMITED\n)\n";

/// What is solved of it where each direction of the link has the whole capacity.
pub const BOTH_WAYS_SOLVED: &[u8] =
    b"mcf-certificate 2\nverdict closed\nlinks bidirected\nmodules largest\nnet nodes 2 cells 2 commodities 2 decimals 0 skipped 0 left 0 hops 0\ngap 0.050000\nphases 1\nscale 10 5\nlower 10/5 2.000000\nupper 90071992547409920/45035996273704960 2.000000\npath D1 5 +L1\npath D2 5 -L1\nlength +L1 4503599627370496\nlength -L1 4503599627370496\npotential A 0 4503599627370496\npotential B 4503599627370496 0\nend\n";

/// A routing for the network of two demands.
pub const BOTH_ROUTED: &[u8] =
    b"mcf-routing 1\nlinks undirected\nmodules none\nphases 1\nscale 10 10\npath D1 5 L1\npath D2 5 L1\nend\n";

/// A routing for it with a cell of the link for each direction.
pub const EACH_WAY_ROUTED: &[u8] =
    b"mcf-routing 2\nlinks bidirected\nmodules none\nphases 1\nscale 10 5\npath D1 5 +L1\npath D2 5 -L1\nend\n";

/// A routing for the network of one link that uses its link there, back and there again.
pub const THERE_AND_BACK: &[u8] =
    b"mcf-routing 1\nlinks undirected\nmodules none\nphases 1\nscale 10 12\npath D1 4 L1 L1 L1\nend\n";

/// A link without capacity and a demand of 5 over it.
pub const NO_CAPACITY: &[u8] =
    b"?SNDlib native format; type: network; version: 1.0\nNODES (\n  A\n  B\n)\nLINKS (\n  L1 ( A B ) 0 0 0 0 ( )\n)\nDEMANDS (\n  D1 ( A B ) 1 5 UNLIMITED\n)\n";

/// A certificate for the network without capacity, in form 1.
pub const CUT: &[u8] =
    b"mcf-certificate 1\nverdict closed\nlinks undirected\nmodules largest\nnet nodes 2 cells 1 commodities 1 decimals 0 skipped 0 left 0 hops 0\ngap 0.050000\nphases 0\nscale 0 1\nlower 0/1 0.000000\nupper 0/5 0.000000\nlength L1 1\npotential A 0 1\nend\n";

/// The same certificate in form 2.
pub const CUT_SIGNED: &[u8] =
    b"mcf-certificate 2\nverdict closed\nlinks undirected\nmodules largest\nnet nodes 2 cells 1 commodities 1 decimals 0 skipped 0 left 0 hops 0\ngap 0.050000\nphases 0\nscale 0 1\nlower 0/1 0.000000\nupper 0/5 0.000000\nlength =L1 1\npotential A 0 1\nend\n";

/// Links of 3 and 7 side by side, and a demand of 10.
pub const TWO_LINKS: &[u8] =
    b"?SNDlib native format; type: network; version: 1.0\nNODES (\n  A\n  B\n)\nLINKS (\n  L1 ( A B ) 3 0 0 0 ( )\n  L2 ( A B ) 7 0 0 0 ( )\n)\nDEMANDS (\n  D1 ( A B ) 1 10 UNLIMITED\n)\n";

/// A network in free layout, with a comment, a place, a module, and numbers of several spellings.
pub const FREE_LAYOUT: &[u8] =
    b"?SNDlib native format; type: network; version: 1.0\nNODES(A B#note\nC ( 1 2 ))LINKS(L1(A B)1.0E3 0 0 0()L2(B C)5. 0 0 0(.5 9))\nDEMANDS(D1(A C)1 .5 UNLIMITED)\n";

/// The canonical text of the same rows.
pub const FREE_LAYOUT_PRINTED: &[u8] =
    b"?SNDlib native format; type: network; version: 1.0\nNODES (\n  A\n  B\n  C ( 1 2 )\n)\nLINKS (\n  L1 ( A B ) 1.0E3 0 0 0 ( )\n  L2 ( B C ) 5. 0 0 0 ( .5 9 )\n)\nDEMANDS (\n  D1 ( A C ) 1 .5 UNLIMITED\n)\n";

/// A certificate of one phase over the second link, in form 1.
pub const OPEN: &[u8] =
    b"mcf-certificate 1\nverdict open\nlinks directed\nmodules largest\nnet nodes 2 cells 2 commodities 1 decimals 0 skipped 0 left 0 hops 0\ngap 0.050000\nphases 1\nscale 7 10\nlower 7/10 0.700000\nupper 20266198323167226/19301141260159260 1.050001\npath D1 10 L2\nlength L1 2251799813685248\nlength L2 1930114126015926\npotential A 0 1930114126015926\nend\n";

/// What that certificate is worth without each link.
pub const OPEN_SWEPT: &[u8] =
    b"sweep L1 lower 7/10 0.700000 upper 13510798882111482/19301141260159260 0.700000\nsweep L2 lower 0/10 0.000000 upper 6755399441055744/19301141260159260 0.350001\n";

/// A certificate that says open and is closed.
pub const INVALID: &[u8] =
    b"mcf-certificate 1\nverdict open\nlinks directed\nmodules largest\nnet nodes 2 cells 1 commodities 1 decimals 0 skipped 0 left 0 hops 0\ngap 0.050000\nphases 1\nscale 10 4\nlower 10/4 2.500000\nupper 45035996273704960/18014398509481984 2.500000\npath D1 4 L1\nlength L1 4503599627370496\npotential A 0 4503599627370496\nend\n";
