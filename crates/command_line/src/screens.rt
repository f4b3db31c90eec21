ghost use Rattle.std.specs.Prelude.{◌≡◌};
ghost use Rattle.command_line.specs.Screens.{usage, screen, help_text};

use crate::statuses::with_statuses;
use crate::topic::Topic;

/// What `help COMMAND` shows of a command, or what `--help` shows where none is named.
pub fn help_text(topic: Option<Topic>) -> &'static str
    ensures { result.now ≡ help_text topic }
{
    // called for its clause: the constant is the text of the definitions
    usage_is_that_of_the_definitions();
    match topic {
        Some(topic) => screen(topic),
        None => USAGE,
    }
}

/// The usage is that of the definitions.
pub fn usage_is_that_of_the_definitions()
    ensures { USAGE.now ≡ usage }
{}

/// The screen of a command.
fn screen(topic: Topic) -> &'static str
    ensures { result.now ≡ screen topic }
{
    // called for its clauses: each constant is the text of the definitions
    screens_are_those_of_the_definitions();
    match topic {
        Topic::Lint => LINT,
        Topic::Check => CHECK,
        Topic::Summary => SUMMARY,
        Topic::Run => RUN,
        Topic::Table => TABLE,
        Topic::Why => WHY,
        Topic::Chart => CHART,
        Topic::Cards => CARDS,
        Topic::Curve => CURVE,
        Topic::Latest => LATEST,
        Topic::Cycle => CYCLE,
        Topic::WhatIf => WHATIF,
        Topic::Replay => REPLAY,
        Topic::Resume => RESUME,
        Topic::Big => BIG,
    }
}

/// Each text is that of the definitions.
#[tactic(auto, unfolding(crate::specs::Screens::screen))]
fn screens_are_those_of_the_definitions()
    ensures lint { LINT.now ≡ screen Topic.Lint }
    ensures check { CHECK.now ≡ screen Topic.Check }
    ensures summary { SUMMARY.now ≡ screen Topic.Summary }
    ensures run { RUN.now ≡ screen Topic.Run }
    ensures table { TABLE.now ≡ screen Topic.Table }
    ensures why { WHY.now ≡ screen Topic.Why }
    ensures chart { CHART.now ≡ screen Topic.Chart }
    ensures cards { CARDS.now ≡ screen Topic.Cards }
    ensures curve { CURVE.now ≡ screen Topic.Curve }
    ensures latest { LATEST.now ≡ screen Topic.Latest }
    ensures cycle { CYCLE.now ≡ screen Topic.Cycle }
    ensures whatif { WHATIF.now ≡ screen Topic.WhatIf }
    ensures replay { REPLAY.now ≡ screen Topic.Replay }
    ensures resume { RESUME.now ≡ screen Topic.Resume }
    ensures big { BIG.now ≡ screen Topic.Big }
{}

/// What `--help` shows.
pub const USAGE: &str = with_statuses!(
    "\
pull lint PLANT                            writes all that is wrong with a plant file, or what may not be meant
pull check PLANT                           writes whether the plant is live, and its card circuits
pull summary PLANT                         writes waits, mean stock and backlog, and how busy each machine is
pull run PLANT                             writes the report of the plant
pull table PLANT                           writes every date as csv, with each start and whom a part serves
pull why PLANT LABEL JOB                   writes the chain of causes of one date, and where its time went
pull chart PLANT [FROM TO]                 writes a picture of the run, or of the dates from FROM to TO, as SVG
pull cards PLANT WAIT                      writes the least cards with which no job waits longer than WAIT
pull cards PLANT WAIT --each               writes the least cards of each stage by itself
pull curve PLANT FROM TO                   writes what each count of cards from FROM to TO gives
pull latest PLANT WAIT                     writes the latest date of each job, with no wait longer than WAIT
pull cycle PLANT                           writes the cycle time, a critical circuit and the potentials
pull whatif PLANT EDITS                    writes the dates that edits of times and demand dates change
pull replay PLANT SCHEDULE                 writes the report, by the firings of a schedule
pull run PLANT --room B                    writes the report, with room for B more tokens between workers
pull run PLANT --stand                     writes the report, by workers that stand until all is done
pull run PLANT --stop-after N --save FILE  stops after N firings, and writes the checkpoint FILE
pull resume PLANT FILE                     writes the report, from the checkpoint FILE on
pull run PLANT --every N --slots           writes the report, and a checkpoint into a slot each N firings
pull resume PLANT --slots                  writes the report, from the newest slot on
pull big SEED                              writes the summary of the large plant of a seed
pull help COMMAND                          writes more about a command, with an example; so does COMMAND --help
pull --help                                writes this text
pull --version                             writes the name and version

run, resume, curve and big take --workers W too, from 1 to 16; it is 1 where it isn't given

";
    0 1 2 3 4 5 6 7 8 9 10 11 12 13 14 16 17 18 19 20
);

/// `help lint`.
const LINT: &str = with_statuses!(
    "\
pull lint PLANT

Writes all that is wrong with the plant file PLANT and with the files that it names, a line each, 200 at
most, and what is wanted there; or where the file stops being TOML. Where nothing is wrong it writes so,
and then what may not be meant, a note each.

$ pull lint two-stage.toml
no fault
$ sed 's/cards = 1/cards = 99999/; s/time = 5/tim = 5/' two-stage.toml > wrong.toml
$ pull lint wrong.toml
plant: unknown key: stage[2].machine[1].tim (weld.torch)
plant: missing: stage[2].machine[1].time (weld.torch)
plant: out of range: stage[1].cards (cut) wants 0 to 10000
plant: out of range: stage[2].cards (weld) wants 0 to 10000

";
    0 of_plants
);

/// `help check`.
const CHECK: &str = with_statuses!(
    "\
pull check PLANT

Writes how large the line of the plant file PLANT is, and its card circuits, each with its number of
cards. A line that can't move is refused, with stations that wait for each other.

$ pull check two-stage.toml
live 6 stations 11 arcs 3 jobs
circuit stage cut 1
circuit stage weld 1

";
    0 of_plants
);

/// `help summary`.
const SUMMARY: &str = with_statuses!(
    "\
pull summary PLANT

Writes the run of a plant in some twenty lines: throughput, waits, backlog, what is in process, on its
way and in stock at each stage on average, how busy each machine is, and the busiest.

$ pull summary two-stage.toml
jobs 3
last 15
throughput 0.200
wait mean 3.000 most 6 job 3
wait p50 3 p90 6 p95 6 p99 6
at once 1 of 3
backlog mean 0.600 most 2
wip mean 2.000
stage cut process 0.600 move 0.000 stock 0.400 peak 1 of 1
stage weld process 1.000 move 0.000 stock 0.000 peak 1 of 1
machine cut.saw servers 1 busy 0.600
machine weld.torch servers 1 busy 1.000
busiest weld.torch

";
    0 of_plants
);

/// `help run`.
const RUN: &str = with_statuses!(
    "\
pull run PLANT [--workers W]
pull run PLANT --room B [--workers W]
pull run PLANT --stand [--workers W]
pull run PLANT --stop-after N --save FILE [--workers W]
pull run PLANT --every N --slots [--workers W]

Writes the report of a plant: LABEL JOB DATE for each job at each station, what stands where at the
dates of observe, the peak of each stage, how long all jobs wait together, and the last date.

--workers W     threads, 1 to 16; 1 where it isn't given. What is written is the same with any number
--room B        room for B more tokens in each ring between two workers, 1 to 10,000
--stand         by workers that stay in their threads until all is done
--stop-after N  stops once N firings are made, 0 to 1,000,000, and writes how many were
--save FILE     the checkpoint that is written then; its name ends in .ckpt
--every N       a checkpoint each N firings, 1 to 1,000,000
--slots         with --every: into the two slots of pull.slots

$ pull run two-stage.toml
feed 1 0
feed 2 2
feed 3 4
cut 1 0
cut 2 5
cut 3 10
cut.saw 1 3
cut.saw 2 8
cut.saw 3 13
weld 1 0
weld 2 5
weld 3 10
weld.torch 1 5
weld.torch 2 10
weld.torch 3 15
deliver 1 0
deliver 2 5
deliver 3 10
peak cut 1 of 1
peak weld 1 of 1
waiting 9
last 15

";
    0 12 of_plants
);

/// `help table`.
const TABLE: &str = with_statuses!(
    "\
pull table PLANT

Writes every date of a run as csv: the station, the job, the customer whom the part serves, when the
machine starts, and the date. The third field is empty where the part serves nobody.

$ pull table two-stage.toml
station,job,serves,start,date
feed,1,1,,0
feed,2,2,,2
feed,3,3,,4
cut,1,3,,0
cut,2,,,5
cut,3,,,10
cut.saw,1,3,0,3
cut.saw,2,,5,8
cut.saw,3,,10,13
weld,1,2,,0
weld,2,3,,5
weld,3,,,10
weld.torch,1,2,0,5
weld.torch,2,3,5,10
weld.torch,3,,10,15
deliver,1,1,,0
deliver,2,2,,5
deliver,3,3,,10

";
    0 of_plants
);

/// `help why`.
const WHY: &str = with_statuses!(
    "\
pull why PLANT LABEL JOB

Writes the chain of causes of the date of a job at a station, each line with the time that it adds to
the one before, and then where the time went. LABEL is a station as in the report, JOB 1 to 20,000.

$ pull why two-stage.toml deliver 3
weld 1 0 start 0
weld.torch 1 5 part 5
deliver 2 5 part 0
weld 2 5 card 0
weld.torch 2 10 part 5
deliver 3 10 part 0
share weld.torch 10

";
    0 18 of_plants
);

/// `help chart`.
const CHART: &str = with_statuses!(
    "\
pull chart PLANT [FROM TO]

Writes a picture of the run as SVG: a lane for each server of each machine with a bar for each job, and
what stands in each stage over time. With FROM and TO, 0 to 10^16, only the dates from FROM to TO.

$ pull chart two-stage.toml > two-stage.svg
$ grep -c job two-stage.svg
6

";
    0 20 of_plants
);

/// `help cards`.
const CARDS: &str = with_statuses!(
    "\
pull cards PLANT WAIT
pull cards PLANT WAIT --each

Writes the least number of cards with which no job waits longer than WAIT, 0 to 10^16, the same at each
stage, and why one less doesn't do.

--each          takes away at each stage by itself what isn't needed, and writes a line a stage

$ pull cards two-stage.toml 5
cards 2
below job 3 waits 6
$ pull cards two-stage.toml 5 --each
cards cut 1 below dead cut cut.saw weld
cards weld 2 below job 3 waits 6
total 3

";
    0 13 17 of_plants
);

/// `help curve`.
const CURVE: &str = with_statuses!(
    "\
pull curve PLANT FROM TO [--workers W]

Writes what each number of cards from FROM to TO gives: the last date, the throughput, the waits and
the parts in the line. FROM and TO are 0 to 10,000, at most 1,000 numbers.

--workers W     threads, 1 to 16; 1 where it isn't given. What is written is the same with any number

$ pull curve two-stage.toml 0 3
cards 0 dead
cards 1 last 15 throughput 0.200 wait mean 3.000 most 6 wip mean 2.000
cards 2 last 15 throughput 0.200 wait mean 0.333 most 1 wip mean 4.000
cards 3 last 15 throughput 0.200 wait mean 0.000 most 0 wip mean 6.000

";
    0 17 of_plants
);

/// `help latest`.
const LATEST: &str = with_statuses!(
    "\
pull latest PLANT WAIT

Writes the latest date of each job at each station with which no job waits longer than WAIT, 0 to
10^16, and its slack, which is how much later than in the run that is. Where nothing bounds it: none.

$ pull latest two-stage.toml 6
cut 1 2 slack 2
cut 2 none
cut 3 none
cut.saw 1 5 slack 2
cut.saw 2 none
cut.saw 3 none
weld 1 0 slack 0
weld 2 5 slack 0
weld 3 none
weld.torch 1 5 slack 0
weld.torch 2 10 slack 0
weld.torch 3 none
deliver 1 0 slack 0
deliver 2 5 slack 0
deliver 3 10 slack 0
tight 7

";
    0 19 of_plants
);

/// `help cycle`.
const CYCLE: &str = with_statuses!(
    "\
pull cycle PLANT

Writes how fast the line can go in the long run: the cycle time, a circuit of stations that holds it,
with the time once round and the cards on it, and potentials, by which anybody can check both.

$ pull cycle cell.toml
cycle 7/2
circuit cell cell.a cell.b deliver time 7 cards 2
potential feed 0
potential cell 0
potential cell.a 6
potential cell.b 14
potential deliver 0

";
    0 8 of_plants
);

/// `help whatif`.
const WHATIF: &str = with_statuses!(
    "\
pull whatif PLANT EDITS

Writes each date that changes when the lines of the file EDITS are followed, the old one before the new
one, and how many change. A line is `time LABEL JOB TIME` or `demand JOB DATE`.

$ cat slow-weld.txt
time weld.torch 2 8
$ pull whatif two-stage.toml slow-weld.txt
cut 3 10 13
cut.saw 3 13 16
weld 3 10 13
weld.torch 2 10 13
weld.torch 3 15 18
deliver 3 10 13
changed 6

";
    0 16 of_plants
);

/// `help replay`.
const REPLAY: &str = with_statuses!(
    "\
pull replay PLANT SCHEDULE

Writes the report of a plant whose stations work in the order of the file SCHEDULE, the label of a
station on each line. Every order that can be followed to its end has the same report.

$ head -6 order.txt
feed
deliver
weld
cut
cut.saw
weld.torch
$ pull replay two-stage.toml order.txt | tail -2
waiting 9
last 15

";
    0 11 of_plants
);

/// `help resume`.
const RESUME: &str = with_statuses!(
    "\
pull resume PLANT FILE [--workers W]
pull resume PLANT --slots [--workers W]

Writes the report of a plant, as run does, but goes on from the checkpoint FILE that a run with
--stop-after saved, or from the newest slot of pull.slots that one with --every saved.

--workers W     threads, 1 to 16; 1 where it isn't given. What is written is the same with any number
--slots         from the newest slot

$ pull run two-stage.toml --stop-after 0 --save a.ckpt
stopped 0
$ pull resume two-stage.toml a.ckpt | tail -2
waiting 9
last 15

";
    0 7 12 14 of_plants
);

/// `help big`.
const BIG: &str = with_statuses!(
    "\
pull big SEED [--workers W]

Runs the large plant that is drawn from a seed, 0 to 18,446,744,073,709,551,615, and writes its
summary: 50 stations and 2,000 jobs, to try a machine with. It reads no file.

--workers W     threads, 1 to 16; 1 where it isn't given. What is written is the same with any number

$ pull big 7
stations 50
jobs 2000
firings 100000
sum 1888621603
peak s1 6 of 6
peak s2 6 of 6
peak s3 5 of 5
peak s4 2 of 2
peak s5 6 of 6
peak s6 5 of 5
peak s7 5 of 5
peak s8 1 of 1
peak s9 3 of 5
peak s10 3 of 6
peak s11 3 of 4
peak s12 3 of 7
waiting 8986122
last 38078

";
    0 of_no_file
);
