//! The refusals of a plant as a value that no plant file brings as far as `check`, each of a plant that only just isn't
//! sound. The others are cases.
use crate::tests::assert_same::assert_same;
use crate::tests::expect_ok::expect_ok;
use line_base::{Date, Items, Name, Times};
use plant_check::check;
use plant_model::{Machine, Plant, Policy, Stage};
use std::alloc::Global;
use std::process::Abort;

/// What may differ from the sound plant: stage `cut`, which feeds stage `weld`, with a machine `m` each.
#[derive(Clone, Copy)]
struct Parts {
    names: [&'static [u8]; 2],
    feeds: Option<u32>,
    times: &'static [u64],
    demands: &'static [Date],
}

/// A sound plant, extended kanban with two cards a stage.
const SOUND: Parts = Parts {
    names: [b"cut", b"weld"],
    feeds: Some(1),
    times: &[3, 3, 3],
    demands: &[0, 2, 4],
};

/// The plant of these parts.
fn plant_of(rt: &impl Abort, alloc: Global, parts: &Parts) -> Plant {
    let [cut, weld] = parts.names;
    let cut = stage_of(rt, alloc, parts, cut, parts.feeds);
    let weld = stage_of(rt, alloc, parts, weld, None);
    Plant {
        policy: Policy::Extended,
        stages: Items::from_vec(expect_ok(rt, vec![in alloc; cut, weld])),
        loops: Items::from_vec(Vec::new(alloc)),
        card_time: 0,
        demands: numbers_of(rt, alloc, parts.demands),
        observe: Items::from_vec(Vec::new(alloc)),
    }
}

/// A stage with this name, which feeds this one.
fn stage_of(
    rt: &impl Abort,
    alloc: Global,
    parts: &Parts,
    name: &[u8],
    feeds: Option<u32>,
) -> Stage {
    let times = Times::Each(numbers_of(rt, alloc, parts.times));
    let machine = Machine::of(expect_ok(rt, Name::of(alloc, b"m")), times);
    Stage {
        name: expect_ok(rt, Name::of(alloc, name)),
        feeds,
        cards: 2,
        stock: 1,
        travel: 0,
        card_time: 0,
        machines: Items::from_vec(expect_ok(rt, vec![in alloc; machine])),
    }
}

/// These numbers as a list.
fn numbers_of(rt: &impl Abort, alloc: Global, numbers: &[u64]) -> Items<u64> {
    Items::from_vec(expect_ok(rt, Vec::from_slice(alloc, numbers)))
}

/// The verdict on a plant: the text of its refusal, or `sound`.
fn verdict_of(rt: &impl Abort, alloc: Global, plant: &Plant) -> String {
    match check(alloc, plant) {
        Ok(()) => expect_ok(rt, String::from_str(alloc, "sound")),
        Err(error) => {
            let text = format!(in alloc; "{error}");
            drop(error);
            expect_ok(rt, text)
        }
    }
}

/// Parts of plants, each with the verdict on its plant.
const VERDICTS: [(Parts, &str); 7] = [
    (SOUND, "sound"),
    (
        Parts {
            names: [b"cut", b"feed"],
            ..SOUND
        },
        "bad name: stage[2].name",
    ),
    (
        Parts {
            names: [b"cut", b"cut"],
            ..SOUND
        },
        "name twice: stage[2].name",
    ),
    (
        Parts {
            times: &[3, 1_000_000_001],
            ..SOUND
        },
        "out of range: stage[1].machine[1].times[2]",
    ),
    (
        Parts {
            demands: &[],
            ..SOUND
        },
        "out of range: demands",
    ),
    (
        Parts {
            feeds: Some(0),
            ..SOUND
        },
        "feeds no later stage: stage[1].feeds",
    ),
    (
        Parts {
            feeds: None,
            ..SOUND
        },
        "two final stages: stage[1]",
    ),
];

#[test]
fn plants_are_refused_at_their_first_fault(rt: HostRuntime) {
    for (parts, line) in &VERDICTS {
        let plant = plant_of(&rt, rt.alloc(), parts);
        let verdict = verdict_of(&rt, rt.alloc(), &plant);
        drop(plant);
        assert_same(&rt, verdict.as_str(), *line);
    }
}
