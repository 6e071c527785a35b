//! What the properties of an attribute say.

use crate::table::all_hold;
use cal_value::Props;

/// Bits, and whether they say: as value, reference, nested, process scope, skip events, global.
const PROPERTIES: [(u32, [bool; 6]); 9] = [
    (0, [false, true, false, false, false, false]),
    (1, [true, false, false, false, false, false]),
    (12, [false, true, false, true, false, false]),
    (4, [false, true, false, false, false, false]),
    (28, [false, true, false, false, false, false]),
    (64, [false, true, false, false, true, false]),
    (256, [false, true, true, false, false, false]),
    (257, [true, false, false, false, false, false]),
    (0xFFFF_FF8F, [true, false, false, true, false, true]),
];

fn properties() -> &'static [(u32, [bool; 6])] {
    &PROPERTIES
}

fn said(props: Props) -> [bool; 6] {
    [
        props.is_as_value(),
        props.is_reference(),
        props.is_nested(),
        props.has_process_scope(),
        props.skips_events(),
        props.is_global(),
    ]
}

fn wrong_properties() -> Option<usize> {
    let rows = properties();
    for row in 0..rows.len() {
        if said(Props(rows[row].0)) != rows[row].1 {
            return Some(row);
        }
    }
    None
}

#[test]
fn tells_properties(rt: HostRuntime) {
    all_hold(&rt, wrong_properties());
}

#[test]
fn names_properties(rt: HostRuntime) {
    use bitflags::Flags;
    assert!(rt; Props::from_bits_retain(1024).bits() == 1024);
    assert!(rt; Props::from_name("NESTED") == Some(Props::NESTED));
    assert!(rt; Props::from_bits(1024).is_none());
    assert!(rt; Props::all().bits() == 991);
}
