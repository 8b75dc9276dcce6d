use crate::item::{Item, fits};
use std::process::Abort;

#[test]
fn what_nests_needs_room(rt: HostRuntime) {
    let flat: [Item<u8, u8>; 2] = [Item::Here(1), Item::Do(2)];
    let nested: [Item<u8, u8>; 2] = [Item::Do(2), Item::Inside(1)];
    assert!(rt; fits(0, &flat));
    assert!(rt; !fits(0, &nested));
    assert!(rt; fits(1, &nested));
}
