//! The steps of a session: `steps` with arguments answers those that are handed out, one line for
//! each, with its outcome. `failing step N` says which one fails, from 1.

use crate::tests::asked::on;
use crate::tests::scene::{context_of, scene_of};
use crate::tests::sessions::planned;
use crate::tests::world::number;
use crate::tests::worlds::PLAIN;
use hack_holds::Wrong;
use hack_session::session::{History, Outcome, Session};
use std::alloc::{AllocError, Global};

fn outcome(place: u64, failing: u64) -> Outcome {
    if place == failing {
        Outcome::Failed
    } else {
        Outcome::Passed
    }
}

/// Gives the session the outcome of its next step, if there is one.
fn end_next(session: &mut Session, outcome: Outcome) {
    match session.next() {
        Some(_) => session.done(outcome),
        None => (),
    }
}

fn hand_out(session: &mut Session, failing: u64) {
    for place in 1..=20_u64 {
        end_next(session, outcome(place, failing));
    }
}

fn push_handed(text: &mut String, alloc: Global, handed: History<'_>) -> Result<(), AllocError> {
    for one in handed {
        let (step, outcome) = (one.step, one.outcome);
        text.push_str(format!(in alloc; "{step:?} {outcome:?}\n")?.as_str())?;
    }
    Ok(())
}

pub fn steps(alloc: Global, world: &str, words: &str) -> Result<String, Wrong> {
    let mut scene = scene_of(alloc, world, words)?;
    let cx = context_of(alloc, &mut scene)?;
    let plan = planned(alloc, &cx)?;
    let mut session = Session::new(alloc, plan, cx.args().partition, cx.args().keep_going)?;
    hand_out(&mut session, number(world, "failing step"));
    let mut text = String::new(alloc);
    push_handed(&mut text, alloc, session.handed())?;
    text.push_str("end")?;
    Ok(text)
}

#[test]
fn steps_in_order(rt: HostRuntime) -> Result<(), Wrong> {
    on(
        rt.alloc(),
        PLAIN,
        r#"
            > steps: hack check --version-range 1.60..=1.61 --partition 2/2
            | Prepare(Toolchain(0)) Passed
            | Skip(0) Passed
            | Prepare(Toolchain(1)) Passed
            | Run(1) Passed
            | end

            > steps: hack check --each-feature; features a d
            | Run(0) Passed
            | Run(1) Passed
            | Run(2) Passed
            | Run(3) Passed
            | end

            > steps: hack check --version-range 1.60..=1.61 --clean-per-version
            | Prepare(Toolchain(0)) Passed
            | Prepare(Clean(0)) Passed
            | Run(0) Passed
            | Prepare(Toolchain(1)) Passed
            | Prepare(Clean(1)) Passed
            | Run(1) Passed
            | end
        "#,
    )
}

// A preparation that fails stops the session; a run does unless runs go on; a skipped place never
// does.
#[test]
fn a_step_that_fails(rt: HostRuntime) -> Result<(), Wrong> {
    on(
        rt.alloc(),
        PLAIN,
        r#"
            > steps: hack check --version-range 1.60..=1.61 --keep-going; failing step 1
            | Prepare(Toolchain(0)) Failed
            | end

            > steps: hack check --version-range 1.60..=1.61; failing step 2
            | Prepare(Toolchain(0)) Passed
            | Run(0) Failed
            | end

            > steps: hack check --version-range 1.60..=1.61 --keep-going; failing step 2
            | Prepare(Toolchain(0)) Passed
            | Run(0) Failed
            | Prepare(Toolchain(1)) Passed
            | Run(1) Passed
            | end

            > steps: hack check --version-range 1.60..=1.61 --partition 2/2; failing step 2
            | Prepare(Toolchain(0)) Passed
            | Skip(0) Failed
            | Prepare(Toolchain(1)) Passed
            | Run(1) Passed
            | end
        "#,
    )
}
