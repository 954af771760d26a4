use crate::triangle::net_of;
use dijkstra_paths::Graph;
use fixed_exp::Powers;
use flow_model::Setting;
use hop_paths::HopScratch;
use std::test::Fail;

const FIRST: Setting = Setting {
    first: true,
    ref_cap: 0,
    ref_load: 1,
    step: 8192,
};

#[test]
fn a_way_round_takes_two_links(rt: HostRuntime) -> Result<(), Fail> {
    let net = net_of(rt.alloc())?;
    let mut lengths = [0, 0, 0];
    Powers::new().lengths(&net, &FIRST, &[0, 0, 0], &mut lengths);
    let graph = Graph::new(rt.alloc(), &net)?;
    let mut scratch = HopScratch::new(rt.alloc(), 3, 2)?;
    scratch.search(&graph, &lengths, 0, 2);
    assert_eq!(rt; scratch.dist(0, 1), None);
    assert_eq!(rt; scratch.dist(1, 1), Some(4503599627370496));
    assert_eq!(rt; scratch.dist(2, 1), Some(1801439850948198));
    assert!(rt; scratch.path_to(0, 1).is_none());
    assert_eq!(rt; scratch.path_to(1, 1), Some([0].as_slice()));
    assert_eq!(rt; scratch.path_to(2, 1), Some([1, 2].as_slice()));
    assert_eq!(rt; scratch.path_to(2, 2), Some([1].as_slice()));
    Ok(())
}
