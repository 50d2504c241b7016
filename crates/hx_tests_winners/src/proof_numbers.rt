//! Each call of hx_pn once, with numbers that were worked out by hand.

use hx_pn::{INF, Numbers, UNSEEN, combine, focus, thresholds, worse};
use std::test::Fail;

const CHILDREN: [Numbers; 3] = [
    Numbers { phi: 1, delta: 3 },
    Numbers { phi: 2, delta: 1 },
    Numbers { phi: 4, delta: 2 },
];

#[test]
fn a_node_goes_down_to_a_child(rt: HostRuntime) -> Result<(), Fail> {
    let node = combine(&CHILDREN);
    assert_eq!(rt; (node.phi, node.delta), (1, 7));
    let found = thresholds(Numbers { phi: 10, delta: 20 }, &CHILDREN);
    assert_eq!(rt; found, Some((1, Numbers { phi: 15, delta: 3 })));
    assert_eq!(rt; thresholds(Numbers { phi: 10, delta: 7 }, &CHILDREN), None);
    Ok(())
}

#[test]
fn some_children_are_looked_at(rt: HostRuntime) -> Result<(), Fail> {
    let live = [focus(0), focus(1), focus(4), focus(5), focus(121)];
    assert_eq!(rt; live, [0, 1, 2, 3, 32]);
    let held = worse(Numbers { phi: 3, delta: 5 }, 2);
    assert_eq!(rt; (held.phi, held.delta), (3, 7));
    Ok(())
}

#[test]
fn a_position_that_nobody_looked_at(rt: HostRuntime) -> Result<(), Fail> {
    assert!(rt; UNSEEN.is_unseen());
    let looked_at = Numbers {
        phi: INF - 1,
        delta: INF - 2,
    };
    assert!(rt; !looked_at.is_unseen());
    Ok(())
}
