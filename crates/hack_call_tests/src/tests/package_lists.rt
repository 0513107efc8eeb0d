//! Which members of a workspace a call runs on: their names, with `(single)` where one remains
//! after exclusions, and the notices.

use crate::tests::asked::{Show, on};
use hack_holds::Wrong;

#[test]
fn packages(rt: HostRuntime) -> Result<(), Wrong> {
    on(
        rt.alloc(),
        Show::Packages,
        "p;q;r!",
        "
            > in $ check
            | : p q r
            > in q $ check
            | : q (single)
            > in q $ check --workspace
            | : p q r
            > in q $ check -p r -p p
            | : p r
            > in p $ check -p q@0.1
            | : q (single)
            > in $ check -p q -p y -p z
            | package ID specification `y` matched no packages
            > in $ check --workspace -p y
            | : p q r
            > in $ check --workspace --exclude q
            | : p r
            > in $ check --exclude q --exclude p
            | : r (single)
            > in q $ check --exclude q
            | :
            > in $ check --workspace --exclude z --exclude p
            | : q r
            | warning: excluded package(s) `z` not found in workspace `/w`
            > in $ check -p p --exclude q@9
            | : p (single)
            | warning: excluded package(s) `q@9` not found in workspace `/w`
            > in $ check --ignore-private
            | : p q
            | info: skipped running on private package `r`
            > in $ check --ignore-private --verbose --exclude p --exclude q
            | : (single)
            | info: skipped running on private package `r (/w/r)`
            > in $ check --ignore-private --exclude r
            | : p q
            > in r $ check --exclude z --feature-powerset --mutually-exclusive-features a,b --allow-together y=a,b --allow-together p=a,b --ignore-private
            | : (single)
            | warning: excluded package(s) `z` not found in workspace `/w`
            | warning: package `y` of --allow-together not found in workspace `/w`
            | info: skipped running on private package `r`
        ",
    )
}
