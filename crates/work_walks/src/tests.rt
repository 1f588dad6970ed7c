// Walks over three numbers; the words were worked out by hand. Mostly 0 leads to 1, 1 to 0 and 2, 2 to 0.
use crate::apart::ApartWalks;
use crate::{EDGES, STEPS, Walks};

// A row of one word has the bits of 64 numbers; the layers stand after the steps of three.
const CLOSE: Walks<1> = Walks {
    steps: 0,
    layers: 3,
};

#[test]
fn layers_hold_the_numbers_that_lead_to_one(rt: HostRuntime) {
    let mut w: [u64; 7] = [2, 5, 1, u64::MAX, u64::MAX, u64::MAX, u64::MAX];
    CLOSE.fill_layers(&mut w, 3, 0);
    assert_eq!(rt; w, [2, 5, 1, 1, 6, 3, 7]);
    assert_eq!(rt; CLOSE.layer_of(&w, 3, 2), 0);
    assert_eq!(rt; CLOSE.layer_of(&w, 3, 0), 1);
    assert_eq!(rt; CLOSE.next(&w, 3, 1, 1), 2);
    assert_eq!(rt; CLOSE.next(&w, 3, 0, 0), 3, "no step leads from 0 to 0");
}

#[test]
fn layers_end_where_the_first_number_is_back(rt: HostRuntime) {
    let mut w: [u64; 7] = [2, 5, 1, u64::MAX, u64::MAX, u64::MAX, u64::MAX];
    assert_eq!(rt; CLOSE.fill_until(&mut w, 3, 0), 1);
    assert_eq!(rt; &w[..6], [2, 5, 1, 1, 6, 3].as_slice());
    let mut w: [u64; 7] = [2, 4, 0, u64::MAX, u64::MAX, u64::MAX, u64::MAX];
    assert_eq!(rt; CLOSE.fill_until(&mut w, 3, 2), 3, "no way leads back to 2");
}

#[test]
fn edges_lead_back(rt: HostRuntime) {
    let mut w = [0u64; work_area::LAYERS_END];
    w[work_area::EDGE] = 2;
    w[work_area::EDGE + 2] = 5;
    w[work_area::EDGE + 4] = 1;
    assert_eq!(rt; EDGES.fill_until(&mut w, 3, 0), 1);
}

#[test]
fn steps_lead_to_a_moment(rt: HostRuntime) {
    let mut w = [0u64; work_area::CHAINS_END];
    w[work_area::STEP] = 2;
    w[work_area::STEP + 6] = 5;
    w[work_area::STEP + 12] = 1;
    STEPS.fill_layers(&mut w, 3, 0);
    assert_eq!(rt; STEPS.layer_of(&w, 3, 0), 1);
    assert_eq!(rt; STEPS.next(&w, 3, 1, 1), 2);
}

// The layers stand after the steps of all 64.
const APART: ApartWalks<1> = ApartWalks {
    steps: 0,
    layers: 64,
};

#[test]
fn further_after_the_steps_the_layers_are_the_same(rt: HostRuntime) {
    let mut w = [u64::MAX; 68];
    w[0] = 2;
    w[1] = 5;
    w[2] = 1;
    APART.fill_layers(&mut w, 3, 0);
    assert_eq!(rt; &w[64..], [1, 6, 3, 7].as_slice());
    assert_eq!(rt; APART.layer_of(&w, 3, 0), 1);
    assert_eq!(rt; APART.next(&w, 3, 1, 1), 2);
    assert_eq!(rt; APART.fill_until(&mut w, 3, 0), 1);
}
