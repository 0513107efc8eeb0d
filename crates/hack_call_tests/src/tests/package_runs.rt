//! The runs of a package: their kind, their number, and each of them. `A` is the run with all
//! features, `N` the one without, `-` the plain one.

use crate::tests::asked::{Show, on};
use hack_holds::Wrong;

#[test]
fn kinds(rt: HostRuntime) -> Result<(), Wrong> {
    on(
        rt.alloc(),
        Show::EachOfSeveral,
        "p - a b c default / o",
        "
            > check
            | normal 1 -
            > check --each-feature
            | each 6 A N a b c default
            > check --each-feature --features a
            | each 5 A N b c default
            > check --each-feature --optional-deps
            | each 7 A N a b c default o
            > members p - a / n o $ check --each-feature --optional-deps x,o
            | each 4 A N a o
            > members p - a $ check --each-feature
            | each 2 N a
            > members p $ check --each-feature
            | normal 1 -
            > members p - a b $ check --each-feature --exclude-features a --exclude-no-default-features
            | each 1 b
            > check --feature-powerset
            | powerset 17 A N a b a,b c a,c b,c a,b,c default a,default b,default a,b,default c,default a,c,default b,c,default a,b,c,default
            > check --feature-powerset --features a
            | powerset 9 A N b c b,c default b,default c,default b,c,default
            > check --feature-powerset --depth 2
            | powerset 12 A N a b a,b c a,c b,c default a,default b,default c,default
            > check --feature-powerset --group-features a,b
            | powerset 9 A N c default c,default a,b c,a,b default,a,b c,default,a,b
            > check --feature-powerset --group-features a,b --group-features a,c
            | powerset 9 A N default a,b default,a,b a,c default,a,c a,b,a,c default,a,b,a,c
            > check --each-feature --include-features a,b
            | each 2 a b
            > check --feature-powerset --include-features a,b
            | powerset 3 a,b a b
            > members p - a $ check --feature-powerset --include-features a,a
            | powerset 3 a,a a a
            > members p - a b:a c:b d:m e:b,d / m $ check --feature-powerset
            | powerset 11 A N a b c d a,d b,d c,d e c,e
            > members p - a b:a c:b d:m e:b,d / m $ check --feature-powerset --optional-deps
            | powerset 14 N c,m a b c d a,d b,d c,d e c,e m a,m b,m
            > members p - a b:a c:b d:m e:b,d / m $ check --feature-powerset --group-features b,d
            | powerset 8 A N a c e c,e b,d c,b,d
            > members p - a $ check --feature-powerset --depth 0
            | powerset 1 N
            > members p - a / d $ check --feature-powerset --depth 1 --optional-deps
            | powerset 4 A N a d
            > check --feature-powerset --depth 1
            | powerset 6 A N a b c default
            > members p - a b $ check --feature-powerset --depth 0 --at-least-one-of a,b
            | powerset 0
            > members p $ check --feature-powerset --depth 0 --at-least-one-of a,b
            | normal 1 -
        ",
    )
}

#[test]
fn lifted_groups(rt: HostRuntime) -> Result<(), Wrong> {
    on(
        rt.alloc(),
        Show::EachAlone,
        "",
        "
            > members p - async-std tokio $ check --feature-powerset --mutually-exclusive-features tokio,async-std --allow-together p=tokio,async-std
            | powerset 4 N async-std,tokio async-std tokio
            > members q - async-std tokio $ check --feature-powerset --mutually-exclusive-features tokio,async-std --allow-together p=tokio,async-std
            | powerset 3 N tokio async-std
        ",
    )
}

#[test]
fn notices(rt: HostRuntime) -> Result<(), Wrong> {
    on(
        rt.alloc(),
        Show::EachAlone,
        "p - a / o",
        "
            > check --each-feature --exclude-features x,a --optional-deps y,o
            | each 2 N o
            | warning: specified feature `x` not found in package `p`
            | warning: specified optional dependency `y` not found in package `p`
            > check --each-feature --optional-deps=
            | each 3 A N a
            > members p - a b / o $ check --feature-powerset --ignore-unknown-features --group-features b,o --group-features a,x
            | powerset 3 A N b,o
            | info: skipped applying group `a,x` to p
            > members p - a $ check --each-feature --exclude-features x --include-features a
            | each 1 a
        ",
    )?;
    on(
        rt.alloc(),
        Show::EachOfSeveral,
        "p - a",
        "
            > check --each-feature --exclude-features x
            | each 2 N a
        ",
    )
}
