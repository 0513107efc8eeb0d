//! Plans of small inputs, whole; plans that are too long for a list of places; and the pieces of a
//! status line.

use crate::tests::inputs::on_plans;
use hack_holds::Wrong;

#[test]
fn targets(rt: HostRuntime) -> Result<(), Wrong> {
    on_plans(
        rt.alloc(),
        "
            > plan targets=2
            | 2
            | none 0..2: 0/0/0 1/0/0

            # Cargo's own version isn't known.
            > plan targets=2 minor=0
            | 2
            | none 0..2: 0/0/0 1/0/0
            > plan targets=2 minor=64
            | 1
            | none 0..1: 0/0/0
            > plan targets=2 range=1.63..=1.64
            | 3
            | 1.63 0..2: 0/0/0 1/0/0
            | 1.64 2..3: 0/0/0
        ",
    )
}

#[test]
fn own_versions(rt: HostRuntime) -> Result<(), Wrong> {
    on_plans(
        rt.alloc(),
        "
            > plan range=..=1.64 step=2 owns=1.60,1.61 counts=1,1
            | 6
            | 1.60 0..1: 0/0/0
            | 1.61 1..2: 0/1/0
            | 1.62 2..4: 0/0/0 0/1/0
            | 1.64 4..6: 0/0/0 0/1/0
            > plan range=1.62..=1.63 owns=1.64,1.62.1,- counts=1,2,1
            | 6
            | 1.62 0..3: 0/1/0 0/1/1 0/2/0
            | 1.63 3..6: 0/1/0 0/1/1 0/2/0
            > plan range=own owns=1.61,1.60 counts=1,0
            | 1
            | 1.60 0..0:
            | 1.61 0..1: 0/0/0
        ",
    )
}

#[test]
fn as_cargo(rt: HostRuntime) -> Result<(), Wrong> {
    on_plans(
        rt.alloc(),
        "
            > plan targets=2 owns=1.60,1.61 counts=3,4 cargo
            | 2
            | none 0..2: 0/-/0 1/-/0
            > plan range=..=1.61 owns=1.60,1.60.1 counts=3,4 cargo
            | 2
            | 1.60 0..1: 0/-/0
            | 1.61 1..2: 0/-/0
            > plan range=..=1.62 targets=2 owns=1.60,1.61 counts=3,4 cargo
            | currently only single MSRV is supported by --workspace-behavior=cargo; consider using --package or --exclude to run per MSRV
            > plan targets=2 owns= counts= cargo
            | 2
            | none 0..2: 0/-/0 1/-/0
        ",
    )
}

#[test]
fn edges(rt: HostRuntime) -> Result<(), Wrong> {
    on_plans(
        rt.alloc(),
        "
            > plan owns= counts=
            | 0
            | none 0..0:
            > plan owns=-,- counts=0,0
            | 0
            | none 0..0:
            > plan targets=2 owns=-,-,- counts=2,0,1
            | 6
            | none 0..6: 0/0/0 0/0/1 0/2/0 1/0/0 1/0/1 1/2/0
            > plan range=1.66..=1.60
            | specified version range `1.66..=1.60` is empty
            > plan range=own owns=1.60,- counts=1,1
            | no rust-version field in p's Cargo.toml is specified; consider setting rust-version field or excluding p
        ",
    )
}

#[test]
fn long_plans(rt: HostRuntime) -> Result<(), Wrong> {
    on_plans(
        rt.alloc(),
        "
            > place 4294967294 counts=4294967295
            | 4294967295 0/0/4294967294
            > place 0 owns=-,- counts=4294967295,1
            | too many runs
            > place 4294967295 owns=-,- counts=4294967295,0
            | 4294967295 ?
            > place 0 owns=-,- counts=18446744073709551615,1
            | too many runs
            > place 65536 range=1.1..=1.60000 counts=65536
            | 3932160000 0/0/0
            > place 3932159999 range=1.1..=1.60000 counts=65536
            | 3932160000 0/0/65535
        ",
    )
}

#[test]
fn pieces(rt: HostRuntime) -> Result<(), Wrong> {
    on_plans(
        rt.alloc(),
        "
            > piece 1/3 1 of 4
            | true
            > piece 1/3 2 of 4
            | false
            > piece 2/3 2 of 4
            | true
            > piece 3/3 3 of 4
            | false
        ",
    )
}
