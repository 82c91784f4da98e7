use crate::{Graph, MAX_NODES};
use std::alloc::{AllocError, Global};
use std::test::Fail;

// The nodes below `spare` that are circular.
fn circular_nodes(alloc: Global, graph: &mut Graph) -> Result<Vec<u32>, AllocError> {
    let mut nodes = Vec::new(alloc);
    for node in 0..graph.spare() {
        if graph.circular(node) {
            nodes.push(node)?;
        }
    }
    Ok(nodes)
}

#[test]
fn rings_are_circular_and_what_leads_to_them_is_not(rt: HostRuntime) -> Result<(), Fail> {
    let alloc = rt.alloc();
    let mut graph = Graph::new(alloc);
    // 0 reads itself; 1 and 2 read one another; 3 reads that ring; 4, 5, 6 and 7 are a diamond.
    graph.set_inputs(0, &[0])?;
    graph.set_inputs(1, &[2])?;
    graph.set_inputs(2, &[1])?;
    graph.set_inputs(3, &[1])?;
    graph.set_inputs(4, &[5, 6])?;
    graph.set_inputs(5, &[7])?;
    graph.set_inputs(6, &[7])?;
    assert_eq!(rt; graph.spare(), 8);
    assert_eq!(rt;
        circular_nodes(alloc, &mut graph)?.as_slice(),
        [0u32, 1, 2].as_slice()
    );
    assert_eq!(rt; graph.inputs(4), [5u32, 6].as_slice());
    assert_eq!(rt; graph.inputs(7), [].as_slice());
    assert!(rt; !graph.circular(MAX_NODES));
    Ok(())
}

#[test]
fn reach_rises_and_has_each_node_once(rt: HostRuntime) -> Result<(), Fail> {
    let mut graph = Graph::new(rt.alloc());
    graph.set_inputs(4, &[6, 5])?;
    graph.set_inputs(5, &[7, 1])?;
    graph.set_inputs(6, &[7])?;
    graph.set_inputs(2, &[2, 3])?;
    assert_eq!(rt; graph.spare(), 8);
    assert_eq!(rt; graph.reach(&[4]), [1u32, 4, 5, 6, 7].as_slice());
    assert_eq!(rt; graph.reach(&[6, 2, 6]), [2u32, 3, 6, 7].as_slice());
    assert_eq!(rt; graph.reach(&[]), [].as_slice());
    assert_eq!(rt; graph.reach(&[0]), [0u32].as_slice());
    Ok(())
}

#[test]
fn a_dropped_node_is_still_named(rt: HostRuntime) -> Result<(), Fail> {
    let mut graph = Graph::new(rt.alloc());
    graph.set_inputs(0, &[1])?;
    graph.set_inputs(1, &[0, 2])?;
    assert!(rt; graph.circular(0));
    graph.drop_node(1);
    assert_eq!(rt; graph.spare(), 3);
    assert!(rt; !graph.circular(0));
    assert_eq!(rt; graph.inputs(0), [1u32].as_slice());
    assert_eq!(rt; graph.reach(&[0]), [0u32, 1].as_slice());
    Ok(())
}

#[test]
fn a_long_chain_needs_no_deep_stack(rt: HostRuntime) -> Result<(), Fail> {
    let mut up = Graph::new(rt.alloc());
    for node in 0..100_000 {
        up.set_inputs(node, &[node + 1])?;
    }
    assert_eq!(rt; up.spare(), 100_001);
    assert_eq!(rt; up.reach(&[0]).len(), 100_001);
    assert!(rt; !up.circular(0));
    up.set_inputs(100_000, &[0])?;
    assert!(rt; up.circular(50_000));
    Ok(())
}

#[test]
fn a_chain_is_built_from_either_end(rt: HostRuntime) -> Result<(), Fail> {
    let mut down = Graph::new(rt.alloc());
    for place in 0..100_000 {
        let node = 100_000 - place;
        down.set_inputs(node, &[node - 1])?;
    }
    assert_eq!(rt; down.spare(), 100_001);
    assert_eq!(rt; down.reach(&[100_000]).len(), 100_001);
    assert_eq!(rt; down.reach(&[7]).len(), 8);
    assert!(rt; !down.circular(100_000));
    Ok(())
}
