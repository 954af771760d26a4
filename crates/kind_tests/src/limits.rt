//! The limits of a network that is read.

ghost use Rattle.std.specs.Prelude.{◌≤◌, length};

use hop_check::hop_limits;
use mcf_limits::MAX_NET_BYTES;
use sndlib_read::read_net;
use std::alloc::{AllocError, Global};
use std::string::String;
use std::test::Fail;
use unit_scale::{LinkMode, ModuleMode, NetOptions, ScaleEnd, scale};

// A number of nodes and a longest path, and the limit that it is, if it is not too far.
type Wanted = (u32, &'static str, Option<Option<u8>>);

const CASES: &[Wanted] = &[
    (3, "1", Some(Some(1))),
    (3, "0.9", Some(Some(0))),
    (3, "1.99", Some(Some(1))),
    (3, "2", Some(None)),
    (3, "UNLIMITED", Some(None)),
    (100, "64.9999999999999", Some(Some(64))),
    (100, "0.0000001", Some(Some(0))),
    (100, "6.4e1", Some(Some(64))),
    (100, "640E-1", Some(Some(64))),
    (100, "70", None),
    (100, "1e99", Some(None)),
    (66, "65", Some(None)),
    (67, "65", None),
];

// A network of `nodes` nodes, with one link and one demand.
fn text_of(alloc: Global, nodes: u32, longest: &str) -> Result<String, AllocError> {
    let mut text = String::from_str(
        alloc,
        "?SNDlib native format; type: network; version: 1.0\nNODES (\n",
    )?;
    for i in 0..nodes {
        let node = format!(in alloc; " N{i}\n")?;
        text.push_str(node.as_str())?;
    }
    text.push_str(")\nLINKS (\n L1 ( N0 N1 ) 10 0 0 0 ( )\n)\nDEMANDS (\n D1 ( N0 N1 ) 1 4 ")?;
    text.push_str(longest)?;
    text.push_str("\n)\n")?;
    Ok(text)
}

// The limits of a network's commodities; out of memory where the text is refused.
fn limits_in(alloc: Global, text: &[u8]) -> Result<Vec<Option<u8>>, ScaleEnd>
    requires { length text.now ≤ MAX_NET_BYTES }
{
    let options = NetOptions {
        links: LinkMode::Undirected,
        modules: ModuleMode::Ignore,
    };
    let raw = match read_net(alloc, text) {
        Ok(raw) => raw,
        Err(_) => return Err(ScaleEnd::Memory),
    };
    let scaled = match scale(alloc, &raw, options) {
        Ok(scaled) => scaled,
        Err(end) => return Err(end),
    };
    hop_limits(alloc, &raw, &scaled)
}

#[test]
fn longest_paths_as_limits(rt: HostRuntime) -> Result<(), Fail> {
    for (nodes, longest, want) in CASES {
        let text = text_of(rt.alloc(), *nodes, longest)?;
        assert!(rt; text.len() <= MAX_NET_BYTES);
        match limits_in(rt.alloc(), text.as_bytes()) {
            Ok(limits) => {
                assert_eq!(rt; limits.len(), 1);
                assert_eq!(rt; Some(limits[0]), *want);
            }
            Err(ScaleEnd::Refused(refusal)) => {
                assert_eq!(rt; *want, None);
                assert_eq!(rt; refusal.line.wrapping_sub(*nodes), 8);
            }
            Err(ScaleEnd::Memory) => assert!(rt; false, "no memory"),
        }
    }
    Ok(())
}
