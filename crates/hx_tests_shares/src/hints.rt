//! Hints that are left and read: of which position, and which numbers are kept.

use hx_count::{HIGHEST_KEPT, Hints, kept};
use hx_pn::{INF, Numbers, UNSEEN};
use std::test::Fail;

#[test]
fn each_place_has_a_hint_of_its_own(rt: HostRuntime) -> Result<(), Fail> {
    let hints = Hints::with_words(rt.alloc(), 2).or(Err("memory"))?;
    hints.set(6, Numbers { phi: 0, delta: INF });
    hints.set(3, Numbers { phi: 5, delta: 7 });
    let (even, odd) = (hints.get(0), hints.get(1));
    assert_eq!(rt; (even.phi, even.delta), (1, HIGHEST_KEPT));
    assert_eq!(rt; (odd.phi, odd.delta), (5, 7));
    Ok(())
}

#[test]
fn a_word_that_nobody_wrote(rt: HostRuntime) -> Result<(), Fail> {
    let hints = Hints::with_words(rt.alloc(), 2).or(Err("memory"))?;
    assert!(rt; hints.get(0).is_unseen());
    hints.set(0, UNSEEN);
    let written = hints.get(0);
    assert_eq!(rt; (written.phi, written.delta), (HIGHEST_KEPT, HIGHEST_KEPT));
    assert_eq!(rt; written, kept(UNSEEN));
    assert!(rt; hints.get(1).is_unseen());
    Ok(())
}

/// Numbers that share a word are told apart by each of their upper twenty binary digits.
#[test]
fn a_word_of_another_position(rt: HostRuntime) -> Result<(), Fail> {
    let hints = Hints::with_words(rt.alloc(), 2).or(Err("memory"))?;
    let seven = Numbers { phi: 7, delta: 7 };
    for digit in 44..64u32 {
        let other = 5 ^ (1u64 << digit);
        hints.set(5, seven);
        assert!(rt; hints.get(other).is_unseen());
        hints.set(other, UNSEEN);
        assert!(rt; hints.get(5).is_unseen());
        assert_eq!(rt; hints.get(other), kept(UNSEEN));
    }
    Ok(())
}
