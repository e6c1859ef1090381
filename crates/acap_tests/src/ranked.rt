//! A test of ranked items: one is put in the place of another one, and one between others.

use acap_entries::{Finger, Ranked};

/// Items that are put among the even numbers below 300, each with its rank, and whether one stood there. 101 belongs where 102 was found,
/// and the second 298 stands where the first was found.
const ROWS: [(u64, usize, bool); 5] = [
    (100, 50, true),
    (102, 51, true),
    (101, 51, false),
    (298, 150, true),
    (298, 150, true),
];

// Puts an item in its place, which is looked for at the finger first: reports how many are less, and whether the same one stood there.
fn replace(ranked: &mut Ranked<u64>, item: u64, finger: &mut Finger) -> Option<(usize, bool)> {
    ranked.reserve(1).ok()?;
    let (rank, old) = ranked.replace(item, finger);
    Some((rank, old == Some(item)))
}

// With 101 among them, all after it have moved.
#[test]
fn replaces_items(rt: HostRuntime) {
    let mut ranked = Ranked::new(rt.alloc());
    let mut finger = Finger::first();
    for number in 0..150u64 {
        let _first = replace(&mut ranked, 2 * number, &mut finger);
    }
    for (item, rank, is_there) in ROWS {
        assert!(rt;
            replace(&mut ranked, item, &mut finger) == Some((rank, is_there)),
            "{item}"
        );
    }
}
