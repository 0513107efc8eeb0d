//! Why a call has no plan. The rows of a sequence are ordered: the cause that a row names is gone
//! in the next row, and the cause of that row held in the first as well.

use crate::tests::asked::{Show, on};
use hack_holds::Wrong;

#[test]
fn faults_in_order(rt: HostRuntime) -> Result<(), Wrong> {
    on(
        rt.alloc(),
        Show::Fault,
        "p 1.60;q 1.x",
        "
            > stable no stable $ check -p y -p p -p q --workspace-behavior=cargo --version-range 1.66..=1.60
            | no stable
            > members p 1.60;q 1.x $ check -p y -p p -p q --workspace-behavior=cargo --version-range 1.66..=1.60
            | package ID specification `y` matched no packages
            > members p 1.60;q 1.x $ check -p p -p q --workspace-behavior=cargo --version-range 1.66..=1.60
            | invalid number `x`
            > members p 1.60;q 1.61 $ check -p p -p q --workspace-behavior=cargo --version-range 1.66..=1.60
            | specified version range `1.66..=1.60` is empty
            > members p 1.60;q 1.61 $ check -p p -p q --workspace-behavior=cargo --version-range 1.60..=1.66
            | currently only single MSRV is supported by --workspace-behavior=cargo; consider using --package or --exclude to run per MSRV
            > members p 1.60;q 1.60.1 $ check -p p -p q --workspace-behavior=cargo --version-range 1.60..=1.66
            | a plan

            # Too many runs, and before them an own version that can't be read.
            > members p 1.x a b c d e f g h i j k l m n o p q $ check --feature-powerset --version-range 1.1..=1.60000
            | invalid number `x`
            > members p 1.1 a b c d e f g h i j k l m n o p q $ check --feature-powerset --version-range 1.1..=1.60000
            | too many runs
        ",
    )
}

/// Forty features have too many sets. That shows before any set is listed.
#[test]
fn too_many_sets(rt: HostRuntime) -> Result<(), Wrong> {
    on(
        rt.alloc(),
        Show::Fault,
        "p - a b c d e f g h i j k l m n o p q r s t u v w x y z A B C D E F G H I J K L M N",
        "
            > check --feature-powerset
            | too many runs
            > check --feature-powerset --exclude-no-default-features --exclude-all-features
            | too many runs
            > check --feature-powerset --mutually-exclusive-features a,b,c --at-least-one-of d,e
            | too many runs
            > check --feature-powerset --depth 2
            | a plan
            > check --feature-powerset --strength 2
            | a plan
            > check --feature-powerset --include-features a,b,c
            | a plan
            > check --each-feature
            | a plan

            # Features that enable each other: all others, one other, the next one.
            > members p - a b c d e f g h i j k l m n o p q r s t u v w x y z A B C D E F G H I J K L M N 0:a,b,c,d,e,f,g,h,i,j,k,l,m,n,o,p,q,r,s,t,u,v,w,x,y,z,A,B,C,D,E,F,G,H,I,J,K,L,M,N $ check --feature-powerset
            | too many runs
            > members p - a b:a c:a d:a e:a f:a g:a h:a i:a j:a k:a l:a m:a n:a o:a p:a q:a r:a s:a t:a u:a v:a w:a x:a y:a z:a A:a B:a C:a D:a E:a F:a G:a H:a I:a J:a K:a L:a M:a N:a $ check --feature-powerset
            | too many runs
            > members p - a:b b:c c:d d:e e:f f:g g:h h:i i:j j:k k:l l:m m:n n:o o:p p:q q:r r:s s:t t:u u:v v:w w:x x:y y:z z:A A:B B:C C:D D:E E:F F:G G:H H:I I:J J:K K:L L:M M:N N $ check --feature-powerset
            | a plan

            # Such a package before another one, and behind it.
            > members p - a b c d e f g h i j k l m n o p q r s t u v w x y z A B C D E F G H I J K L M N;q - x $ check -p p -p q --feature-powerset
            | too many runs
            > members p - x;q - a b c d e f g h i j k l m n o p q r s t u v w x y z A B C D E F G H I J K L M N $ check -p p -p q --feature-powerset
            | too many runs
        ",
    )
}

#[test]
fn faults_of_ranges(rt: HostRuntime) -> Result<(), Wrong> {
    on(
        rt.alloc(),
        Show::Fault,
        "",
        "
            > members p 1.60;q 1.61 $ check --workspace-behavior=cargo --workspace --version-range ..=1.62
            | currently only single MSRV is supported by --workspace-behavior=cargo; consider using --package or --exclude to run per MSRV
            > members p 1.60;q $ check --workspace-behavior=cargo --workspace --rust-version
            | currently only single MSRV is supported by --workspace-behavior=cargo; consider using --package or --exclude to run per MSRV
            > members p;q $ check --version-range ..=1.64
            | no rust-version field in selected Cargo.toml's is specified
            > members p 2.0 $ check --version-range ..=1.64
            | major version must be 1
            > members p 1.60;q $ check --workspace --rust-version
            | no rust-version field in q's Cargo.toml is specified; consider setting rust-version field or excluding q

            # An own version counts only where it is asked for, and only of chosen packages.
            > members p 1.60;q 1.x $ check --workspace
            | a plan
            > members p 1.60;q 1.x $ check --rust-version
            | a plan
        ",
    )
}
