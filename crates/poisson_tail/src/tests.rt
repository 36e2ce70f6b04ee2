use super::{Load, MOST_LAYERS, horizon, weights};
use round_out::ONE;
use step_core::Weights;

#[test]
fn weights_without_load(rt: HostRuntime) {
    let made = weights(rt.alloc(), &Load::new(0, 1), 30).expect(&rt, "memory");
    let mut low = [0; 31];
    low[0] = ONE;
    let mut high = [1; 31];
    high[0] = ONE;
    high[1] = 4096;
    assert_eq!(rt; made.low.as_slice(), low.as_slice());
    assert_eq!(rt; made.high.as_slice(), high.as_slice());
}

#[test]
fn low_weights_of_load_one(rt: HostRuntime) {
    let made = weights(rt.alloc(), &Load::new(1, 1), 32).expect(&rt, "memory");
    let low: [u64; 33] = [
        4611686018427383808,
        4611686018427387904,
        2305843009213693952,
        768614336404564650,
        192153584101141162,
        38430716820228232,
        6405119470038038,
        915017067148291,
        114377133393536,
        12708570377059,
        1270857037705,
        115532457973,
        9627704831,
        740592679,
        52899477,
        3526631,
        220414,
        12965,
        720,
        37,
        1,
        0,
        0,
        0,
        0,
        0,
        0,
        0,
        0,
        0,
        0,
        0,
        0,
    ];
    assert_eq!(rt; made.low.as_slice(), low.as_slice());
}

#[test]
fn high_weights_of_load_one(rt: HostRuntime) {
    let made = weights(rt.alloc(), &Load::new(1, 1), 32).expect(&rt, "memory");
    let high: [u64; 33] = [
        4611686018427387904,
        4611686018427387904,
        2305843009213696000,
        768614336404566017,
        192153584101141675,
        38430716820228370,
        6405119470038068,
        915017067148297,
        114377133393538,
        12708570377060,
        1270857037707,
        115532457974,
        9627704832,
        740592680,
        52899478,
        3526632,
        220415,
        12966,
        721,
        38,
        2,
        1,
        1,
        1,
        1,
        1,
        1,
        1,
        1,
        1,
        1,
        1,
        1,
    ];
    assert_eq!(rt; made.high.as_slice(), high.as_slice());
}

// Whether `num / den`, in words, is at least the low word and at most the high one.
fn lies_between(low: u64, high: u64, num: u64, den: u64) -> bool {
    let word = u128::from(ONE) * u128::from(num);
    u128::from(low) * u128::from(den) <= word && word <= u128::from(high) * u128::from(den)
}

// Whether the weights of each number of jumps enclose the exact weight, which is given as a fraction
// of the mode's.
fn enclose(made: &Weights, exact: &[(usize, u64, u64)]) -> bool {
    for (jumps, num, den) in exact {
        let (Some(low), Some(high)) = (made.low.get(*jumps), made.high.get(*jumps)) else {
            return false;
        };
        if !lies_between(*low, *high, *num, *den) {
            return false;
        }
    }
    true
}

#[test]
fn weights_enclose_small_loads(rt: HostRuntime) {
    let tiny = weights(rt.alloc(), &Load::new(1, 1 << 60), 49).expect(&rt, "memory");
    assert!(rt; enclose(&tiny, &[(0, 1, 1), (1, 1, 1 << 60)]));
    let third = weights(rt.alloc(), &Load::new(1, 3), 49).expect(&rt, "memory");
    assert!(rt;
        enclose(
            &third,
            &[
                (0, 1, 1),
                (1, 1, 3),
                (2, 1, 3 * 3 * 2),
                (3, 1, 3 * 3 * 3 * 2 * 3)
            ]
        )
    );
    let one = weights(rt.alloc(), &Load::new(1, 1), 50).expect(&rt, "memory");
    assert!(rt;
        enclose(
            &one,
            &[
                (0, 1, 1),
                (1, 1, 1),
                (2, 1, 2),
                (3, 1, 2 * 3),
                (4, 1, 2 * 3 * 4)
            ]
        )
    );
}

#[test]
fn weights_enclose_load_seven_and_a_half(rt: HostRuntime) {
    let made = weights(rt.alloc(), &Load::new(15, 2), 63).expect(&rt, "memory");
    let exact = [
        (4, 7 * 6 * 5 * 2 * 2 * 2, 15 * 15 * 15),
        (5, 7 * 6 * 2 * 2, 15 * 15),
        (6, 7 * 2, 15),
        (7, 1, 1),
        (8, 15, 8 * 2),
        (9, 15 * 15, 8 * 9 * 2 * 2),
        (10, 15 * 15 * 15, 8 * 9 * 10 * 2 * 2 * 2),
    ];
    assert!(rt; enclose(&made, &exact));
}

#[test]
fn weights_enclose_load_300(rt: HostRuntime) {
    let made = weights(rt.alloc(), &Load::new(300, 1), 648).expect(&rt, "memory");
    let exact = [
        (297, 299 * 298, 300 * 300),
        (298, 299, 300),
        (299, 1, 1),
        (300, 1, 1),
        (301, 300, 301),
        (302, 300 * 300, 301 * 302),
        (303, 300 * 300 * 300, 301 * 302 * 303),
    ];
    assert!(rt; enclose(&made, &exact));
}

#[test]
fn weights_enclose_load_8177(rt: HostRuntime) {
    let made = weights(rt.alloc(), &Load::new(8177, 1), MOST_LAYERS).expect(&rt, "memory");
    let exact = [
        (8174, 8176 * 8175, 8177 * 8177),
        (8175, 8176, 8177),
        (8176, 1, 1),
        (8177, 1, 1),
        (8178, 8177, 8178),
        (8179, 8177 * 8177, 8178 * 8179),
        (8180, 8177 * 8177 * 8177, 8178 * 8179 * 8180),
    ];
    assert!(rt; enclose(&made, &exact));
}

#[test]
fn weights_enclose_load_8192(rt: HostRuntime) {
    let made = weights(rt.alloc(), &Load::new(8192, 1), MOST_LAYERS).expect(&rt, "memory");
    let exact = [
        (8189, 8191 * 8190, 8192 * 8192),
        (8190, 8191, 8192),
        (8191, 1, 1),
        (8192, 1, 1),
        (8193, 8192, 8193),
        (8194, 8192 * 8192, 8193 * 8194),
        (8195, 8192 * 8192 * 8192, 8193 * 8194 * 8195),
    ];
    assert!(rt; enclose(&made, &exact));
}

// By how many words the two weights of a number of jumps lie apart at most.
fn widest_gap(made: &Weights) -> u64 {
    let mut widest = 0;
    for (low, high) in made.low.as_slice().iter().zip(made.high.as_slice()) {
        widest = high.wrapping_sub(*low).max(widest);
    }
    widest
}

// At the load 1 the weights of no jump, one below the mode, lie 4,096 words apart, where 4,098 are allowed so near the mode;
// up to the horizon of 30 bits it is at most 32 times 4,096 words and 2 for each layer.
#[test]
fn weights_lie_near_each_other(rt: HostRuntime) {
    let one = weights(rt.alloc(), &Load::new(1, 1), 32).expect(&rt, "memory");
    let (low, high) = (one.low.as_slice(), one.high.as_slice());
    assert_eq!(rt;
        (low.first(), high.first()),
        (Some(&(ONE - 4_096)), Some(&ONE))
    );
    for (num, den, last) in [
        (0, 1, 30),
        (1, 1, 32),
        (1, 3, 31),
        (15, 2, 45),
        (300, 1, 630),
        (8177, 1, 16_384),
    ] {
        let made = weights(rt.alloc(), &Load::new(num, den), last).expect(&rt, "memory");
        assert_eq!(rt; horizon(&Load::new(num, den), 30), Some(last));
        assert!(rt;
            widest_gap(&made) <= 32 * 4_096 + 2 * u64::from(last),
            "at {num}/{den}"
        );
    }
}

// The horizons of a load for 8, 30 and 48 bits.
fn horizons(load: &Load) -> [Option<u32>; 3] {
    [horizon(load, 8), horizon(load, 30), horizon(load, 48)]
}

#[test]
fn horizons_of_small_loads(rt: HostRuntime) {
    assert_eq!(rt; horizons(&Load::new(0, 1)), [Some(8), Some(30), Some(48)]);
    assert_eq!(rt;
        horizons(&Load::new(1, 1 << 60)),
        [Some(9), Some(31), Some(49)]
    );
    assert_eq!(rt; horizons(&Load::new(1, 3)), [Some(9), Some(31), Some(49)]);
    assert_eq!(rt; horizons(&Load::new(1, 1)), [Some(10), Some(32), Some(50)]);
    assert_eq!(rt; horizons(&Load::new(15, 2)), [Some(23), Some(45), Some(63)]);
    assert_eq!(rt;
        horizons(&Load::new(300, 1)),
        [Some(608), Some(630), Some(648)]
    );
}

#[test]
fn horizons_of_large_loads(rt: HostRuntime) {
    assert_eq!(rt;
        horizons(&Load::new(8177, 1)),
        [Some(16362), Some(16384), None]
    );
    assert_eq!(rt; horizons(&Load::new(81771, 10)), [Some(16363), None, None]);
    assert_eq!(rt; horizons(&Load::new(8192, 1)), [None, None, None]);
}

#[test]
fn loads_in_fine_units(rt: HostRuntime) {
    assert_eq!(rt; Load::new(1, 1 << 60).fine_load(), 0);
    assert_eq!(rt; Load::new(1, 3).fine_load(), 375299968947541);
    let load = Load::new(15, 2);
    assert_eq!(rt; load.mode(), 7);
    assert_eq!(rt; load.fine_load(), 8444249301319680);
}
