use crate::Queue;
use ob_graph::Graph;
use std::test::Fail;

#[test]
fn a_plan_lists_inputs_first_and_once(rt: HostRuntime) -> Result<(), Fail> {
    let mut graph = Graph::new(rt.alloc());
    graph.set_inputs(2, &[1])?;
    graph.set_inputs(3, &[2])?;
    let mut queue = Queue::new(rt.alloc());
    queue.reserve(4)?;
    queue.mark(3);
    queue.mark(1);
    queue.mark(2);
    queue.mark(3);
    assert_eq!(rt; queue.plan(&graph), [1u32, 2, 3].as_slice());
    assert_eq!(rt; queue.plan(&graph), [].as_slice());
    Ok(())
}

#[test]
fn readers_of_a_ring_stand_after_it(rt: HostRuntime) -> Result<(), Fail> {
    let mut graph = Graph::new(rt.alloc());
    // 0 and 1 read one another, 2 reads the ring and itself, 3 reads 2 twice.
    graph.set_inputs(0, &[1])?;
    graph.set_inputs(1, &[0])?;
    graph.set_inputs(2, &[2, 0])?;
    graph.set_inputs(3, &[2, 2])?;
    let mut queue = Queue::new(rt.alloc());
    queue.reserve(4)?;
    for node in [3u32, 2, 1, 0] {
        if node < queue.spare() {
            queue.mark(node);
        }
    }
    let order = queue.plan(&graph);
    assert_eq!(rt; order.len(), 4);
    assert_eq!(rt; &order[2..], [2u32, 3].as_slice());
    Ok(())
}

#[test]
fn only_marked_nodes_are_listed(rt: HostRuntime) -> Result<(), Fail> {
    let mut graph = Graph::new(rt.alloc());
    graph.set_inputs(0, &[1, 2])?;
    graph.set_inputs(1, &[3])?;
    graph.set_inputs(2, &[3])?;
    let mut queue = Queue::new(rt.alloc());
    queue.reserve(5)?;
    assert_eq!(rt; queue.spare(), 5);
    queue.mark(0);
    queue.mark(2);
    queue.reserve(2)?;
    assert_eq!(rt; queue.spare(), 5);
    assert_eq!(rt; queue.plan(&graph), [2u32, 0].as_slice());
    queue.mark(4);
    assert_eq!(rt; queue.plan(&graph), [4u32].as_slice());
    Ok(())
}

#[test]
fn a_long_chain_needs_no_deep_stack(rt: HostRuntime) -> Result<(), Fail> {
    let mut graph = Graph::new(rt.alloc());
    let mut queue = Queue::new(rt.alloc());
    queue.reserve(100_001)?;
    for node in 0..100_000 {
        graph.set_inputs(node, &[node + 1])?;
        if node < queue.spare() {
            queue.mark(node);
        }
    }
    let order = queue.plan(&graph);
    assert_eq!(rt; order.len(), 100_000);
    assert_eq!(rt; order[0], 99_999);
    assert_eq!(rt; order[99_999], 0);
    Ok(())
}
