use crate::tests::assert_same::assert_same;
use crate::tests::counting_gate::CountingGate;
use crate::tests::expect_ok::expect_ok;
use crate::tests::holding_gate::HoldingGate;
use crate::tests::leak::leak;
use crate::tests::noting_gate::NotingGate;
use crate::tests::pair_gate::PairGate;
use crate::tests::samples::{
    BASE_STOCK, FORTY_DEMANDS, KANBAN, ONE_CARD, ONE_PART, THREE_DEMANDS, stages_file,
};
use crash_disk::MemDisk;
use line_workers::{FreeGate, Gate};
use outside_io::{Files, MemSink, MemStore, Store};
use pull_cli::pull;
use std::alloc::{AllocError, Global};
use std::process::Abort;
use std::sync::Wait;
use std::thread::Threads;

/// How many sweeps a worker makes in a burst.
const SWEEPS: u64 = 16;

/// The checkpoint of the two stages with a card each after all firings for three demands, in format 1.
const FINISHED: &str = "\
pull-checkpoint 1
station feed 3 0 2 4
station cut 3 0 5 10
station cut.saw 3 3 8 13
station weld 3 0 5 10
station weld.torch 3 5 10 15
station deliver 3 0 5 10
place 0 0
place 1 1 13
place 2 1 13
place 3 1 13
place 4 0
place 5 1 15
place 6 1 15
place 7 1 15
place 8 0
place 9 0
place 10 0
end
";

/// The report of the two stages with a card each and three demands.
const REPORT: &str = "\
  feed 1 0\nfeed 2 2\nfeed 3 4\n\
  cut 1 0\ncut 2 5\ncut 3 10\n\
  cut.saw 1 3\ncut.saw 2 8\ncut.saw 3 13\n\
  weld 1 0\nweld 2 5\nweld 3 10\n\
  weld.torch 1 5\nweld.torch 2 10\nweld.torch 3 15\n\
  deliver 1 0\ndeliver 2 5\ndeliver 3 10\n\
  peak cut 1 of 1\npeak weld 1 of 1\nwaiting 9\nlast 15\n";

/// The words of a line.
fn words_of(alloc: Global, line: &str) -> Result<Vec<String>, AllocError> {
    line.split(' ')
        .map(|word| String::from_str(alloc, word))
        .try_collect(alloc)
}

/// A store with one file, of this name and with this text.
fn store_of(alloc: Global, name: &str, text: &str) -> Result<MemStore, AllocError> {
    let name = String::from_str(alloc, name)?;
    let bytes = Vec::from_slice(alloc, text.as_bytes())?;
    let mut files = Files::new(alloc);
    let _ = files.insert(name, bytes)?;
    Ok(MemStore::new(alloc, files, Vec::new(alloc)))
}

/// A store with the plant file `a.toml` of the two stages, by the line of its policy, the dates of its demands, and
/// what else is said of each stage.
fn stages_store(
    rt: &impl Abort,
    alloc: Global,
    policy: &str,
    demands: &str,
    said: &str,
) -> MemStore {
    let file = expect_ok(rt, stages_file(alloc, policy, demands, said, said));
    expect_ok(rt, store_of(alloc, "a.toml", file.as_str()))
}

/// The status of the top call over a store, a sink and a disk, through a gate. What its contract says is let go here.
fn status_of<R: Threads + Wait + Sync, G: Gate>(
    rt: &R,
    alloc: Global,
    words: &[String],
    store: &mut MemStore,
    sink: &mut MemSink,
    gate: &G,
    disk: &mut MemDisk,
) -> u8 {
    pull(rt, alloc, words, store, sink, gate, disk)
}

/// Does what the words of a line ask for over a store and a new disk, through a gate, and asserts that it ends well.
/// Answers what it wrote.
fn output_of<R: Abort + Threads + Wait + Sync, G: Gate>(
    rt: &R,
    alloc: Global,
    line: &str,
    store: &mut MemStore,
    gate: &G,
) -> Vec<u8> {
    let mut disk = MemDisk::new(alloc, Vec::new(alloc));
    let report = output_over(rt, alloc, line, store, gate, &mut disk);
    drop(disk);
    report
}

/// Does what the words of a line ask for over a store and a disk, through a gate, and asserts that it ends well.
/// Answers what it wrote.
fn output_over<R: Abort + Threads + Wait + Sync, G: Gate>(
    rt: &R,
    alloc: Global,
    line: &str,
    store: &mut MemStore,
    gate: &G,
    disk: &mut MemDisk,
) -> Vec<u8> {
    let (status, report) = answer_over(rt, alloc, line, store, gate, disk);
    assert_same(rt, status, 0);
    report
}

/// The status and the output of what the words of a line ask for over a store and a disk, through a gate.
fn answer_over<R: Abort + Threads + Wait + Sync, G: Gate>(
    rt: &R,
    alloc: Global,
    line: &str,
    store: &mut MemStore,
    gate: &G,
    disk: &mut MemDisk,
) -> (u8, Vec<u8>) {
    let words = expect_ok(rt, words_of(alloc, line));
    let mut sink = expect_ok(rt, MemSink::new(alloc, 100_000, Vec::new(alloc), 0));
    let status = status_of(rt, alloc, &words, store, &mut sink, gate, disk);
    drop(words);
    let report = expect_ok(rt, Vec::from_slice(alloc, sink.written()));
    drop(sink);
    (status, report)
}

/// How often the feed steps at the least and at the most in a run of two workers, of which the second begins when the
/// first has made all of its first burst. It makes forty firings. With room for forty tokens each step is one; with room
/// for one token it has then reached a stop, and most of its firings are left for later bursts. Without a bound one
/// worker pays, and makes each firing in a step.
const FEEDS: [(&str, u64, u64); 3] = [
    ("run a.toml --workers 2", 40, 40),
    ("run a.toml --room 40 --workers 2", 40, 40),
    ("run a.toml --room 1 --workers 2", 55, u64::MAX),
];

#[test]
fn a_bounded_ring_holds_the_feed_back(rt: HostRuntime) {
    let alloc = rt.alloc();
    let mut store = stages_store(&rt, alloc, BASE_STOCK, FORTY_DEMANDS, ONE_PART);
    let whole = output_of(&rt, alloc, "run a.toml", &mut store, &FreeGate);
    for (line, least, most) in FEEDS {
        let gate = HoldingGate::new(1, SWEEPS);
        let report = output_of(&rt, alloc, line, &mut store, &gate);
        assert_same(&rt, gate.has_missed(), false);
        let feeds = gate.feeds();
        assert_same(&rt, least <= feeds && feeds <= most, true);
        assert_same(&rt, report.as_slice(), whole.as_slice());
        drop(report);
    }
    drop(whole);
    drop(store);
}

/// What is done with ninety stations, the greatest number of a worker that sweeps, and how many sweeps all make together
/// at the least. Three workers have thirty stations each, which fire forty times in a run; the state that they save in
/// the file has 1,535 of 3,600 firings at the most. One worker saves its last state after thirty-two sweeps.
const BY_THREE: [(&str, u32, u64); 8] = [
    ("run a.toml --workers 3", 2, 120),
    ("run a.toml --room 1 --workers 3", 2, 120),
    ("run a.toml --stand --workers 3", 2, 120),
    ("run a.toml --stop-after 96 --save c.ckpt --workers 3", 2, 4),
    ("resume a.toml c.ckpt --workers 3", 2, 69),
    ("run a.toml --every 130 --slots --workers 3", 2, 120),
    ("run a.toml --every 130 --slots", 0, 40),
    ("resume a.toml --slots --workers 3", 2, 24),
];

#[test]
fn as_many_workers_are_at_work_as_are_asked_for(rt: HostRuntime) {
    let alloc = rt.alloc();
    let said = expect_ok(&rt, said_of_many_machines(alloc, 42));
    let mut store = stages_store(&rt, alloc, KANBAN, FORTY_DEMANDS, said.as_str());
    drop(said);
    let disk = expect_ok(&rt, leak(alloc, MemDisk::new(alloc, Vec::new(alloc))));
    for (line, greatest, sweeps) in BY_THREE {
        let gate = NotingGate::new();
        drop(output_over(&rt, alloc, line, &mut store, &gate, disk));
        assert_same(&rt, gate.greatest(), greatest);
        assert_same(&rt, gate.passes() >= sweeps, true);
    }
    drop(store);
}

/// What two workers are asked to do with six stations, or fifty, and the greatest number of a worker that sweeps.
const BY_FEW: [(&str, u32); 6] = [
    ("run a.toml --workers 2", 0),
    ("run a.toml --room 1 --workers 2", 1),
    ("run a.toml --stand --workers 2", 1),
    ("run a.toml --stop-after 96 --save c.ckpt --workers 2", 1),
    ("resume a.toml c.ckpt --workers 2", 0),
    ("big 7 --workers 2", 0),
];

#[test]
fn workers_that_do_not_pay_are_not_made(rt: HostRuntime) {
    let alloc = rt.alloc();
    let mut store = stages_store(&rt, alloc, KANBAN, FORTY_DEMANDS, ONE_CARD);
    for (line, greatest) in BY_FEW {
        let gate = NotingGate::new();
        drop(output_of(&rt, alloc, line, &mut store, &gate));
        assert_same(&rt, gate.greatest(), greatest);
    }
    drop(store);
}

/// The end of the report of the two stages with a card each and forty demands: a part is delivered every five.
fn forty_deliveries(alloc: Global) -> Result<String, AllocError> {
    let mut end = String::new(alloc);
    for job in 0..40u32 {
        write!(end, "deliver {} {}\n", job + 1, job * 5)?;
    }
    end.push_str("peak cut 1 of 1\npeak weld 1 of 1\nwaiting 2340\nlast 200\n")?;
    Ok(end)
}

/// Asserts that a report of the two stages delivers a part every five, forty in all.
fn assert_delivers_forty(rt: &impl Abort, alloc: Global, report: &[u8]) {
    let end = expect_ok(rt, forty_deliveries(alloc));
    assert_same(rt, report.ends_with(end.as_bytes()), true);
}

// Sixteen sweeps of six stations are 96 firings, of 240; a run that began again would make all forty sweeps.
#[test]
fn a_resumed_run_goes_on_from_its_checkpoint(rt: HostRuntime) {
    let alloc = rt.alloc();
    let mut store = stages_store(&rt, alloc, KANBAN, FORTY_DEMANDS, ONE_CARD);
    let whole = CountingGate::new();
    let report = output_of(&rt, alloc, "run a.toml", &mut store, &whole);
    assert_same(&rt, whole.sweeps(), 40);
    assert_delivers_forty(&rt, alloc, &report);
    let line = "run a.toml --stop-after 96 --save c.ckpt";
    let stopped = output_of(&rt, alloc, line, &mut store, &FreeGate);
    assert_same(&rt, stopped.as_slice(), b"stopped 96\n".as_slice());
    let rest = CountingGate::new();
    let resumed = output_of(&rt, alloc, "resume a.toml c.ckpt", &mut store, &rest);
    drop(store);
    assert_same(&rt, rest.sweeps(), 24);
    assert_same(&rt, resumed, report);
}

/// Does what the words of a line ask for over the two stages with a card each and three demands, and their checkpoint
/// `one.ckpt` after all firings, through a gate. Asserts that it writes their report.
fn assert_writes_report<R: Abort + Threads + Wait + Sync, G: Gate>(
    rt: &R,
    alloc: Global,
    line: &str,
    gate: &G,
) {
    let mut store = stages_store(rt, alloc, KANBAN, THREE_DEMANDS, ONE_CARD);
    expect_ok(rt, store.write("one.ckpt", FINISHED.as_bytes()));
    let report = output_of(rt, alloc, line, &mut store, gate);
    drop(store);
    assert_same(rt, report.as_slice(), REPORT.as_bytes());
}

#[test]
fn a_finished_run_is_resumed_without_a_sweep(rt: HostRuntime) {
    let gate = CountingGate::new();
    assert_writes_report(&rt, rt.alloc(), "resume a.toml one.ckpt", &gate);
    assert_same(&rt, gate.sweeps(), 0);
}

// Where one thread ran both workers, the first at the gate would look in vain for the other.
#[test]
fn two_workers_are_at_work_at_once(rt: HostRuntime) {
    let gate = PairGate::new();
    assert_writes_report(&rt, rt.alloc(), "run a.toml --room 1 --workers 2", &gate);
    assert!(rt; gate.has_come(0) && gate.has_come(1));
    assert_same(&rt, gate.has_missed(), false);
}

// In a run of bursts worker 1 would sweep 16 times, and worker 0 look in vain.
#[test]
fn a_worker_stays_in_its_thread_between_sweeps(rt: HostRuntime) {
    let gate = HoldingGate::new(0, SWEEPS + 1);
    assert_writes_report(&rt, rt.alloc(), "run a.toml --stand --workers 2", &gate);
    assert!(rt; gate.is_open());
    assert_same(&rt, gate.has_missed(), false);
}

/// What is said of a stage with a card and this many machines before its own. The plant of two such stages has six
/// stations and two for each of these.
fn said_of_many_machines(alloc: Global, machines: u32) -> Result<String, AllocError> {
    let mut said = String::from_str(alloc, ONE_CARD)?;
    for machine in 0..machines {
        write!(
            said,
            "\n[[stage.machine]]\nname = \"m{}\"\ntime = 1",
            machine
        )?;
    }
    Ok(said)
}

// In a run of bursts worker 1 would sweep 16 times, and worker 0 look in vain.
#[test]
fn workers_with_thirty_stations_each_sweep_on_in_a_long_burst(rt: HostRuntime) {
    let alloc = rt.alloc();
    let said = expect_ok(&rt, said_of_many_machines(alloc, 27));
    let mut store = stages_store(&rt, alloc, KANBAN, THREE_DEMANDS, said.as_str());
    drop(said);
    let whole = output_of(&rt, alloc, "run a.toml", &mut store, &FreeGate);
    let gate = HoldingGate::new(0, SWEEPS + 1);
    let report = output_of(&rt, alloc, "run a.toml --workers 2", &mut store, &gate);
    drop(store);
    assert!(rt; gate.is_open());
    assert_same(&rt, gate.has_missed(), false);
    assert_same(&rt, report, whole);
}

/// Whether a run that goes on from what this crash leaves of a disk finds nothing saved. Else it is to write this report.
fn finds_nothing<R: Abort + Threads + Wait + Sync>(
    rt: &R,
    alloc: Global,
    store: &mut MemStore,
    disk: &MemDisk,
    (call, pick): (u32, u8),
    whole: &[u8],
) -> bool {
    assert!(rt; call <= disk.calls() && pick <= 2);
    let left = expect_ok(rt, disk.crash(call, pick));
    let left = expect_ok(rt, leak(alloc, left));
    let (status, report) = answer_over(rt, alloc, "resume a.toml --slots", store, &FreeGate, left);
    let is_blank = status == 14;
    let wanted = if is_blank { b"nothing saved\n" } else { whole };
    assert_same(
        rt,
        (is_blank || status == 0) && report.as_slice() == wanted,
        true,
    );
    drop(report);
    is_blank
}

#[test]
fn a_run_that_crashed_is_resumed(rt: HostRuntime) {
    let alloc = rt.alloc();
    let mut store = stages_store(&rt, alloc, KANBAN, FORTY_DEMANDS, ONE_CARD);
    let disk = expect_ok(&rt, leak(alloc, MemDisk::new(alloc, Vec::new(alloc))));
    let line = "run a.toml --every 50 --slots";
    let whole = output_over(&rt, alloc, line, &mut store, &FreeGate, disk);
    assert_delivers_forty(&rt, alloc, &whole);
    let mut was_blank = false;
    for call in 0..disk.calls() {
        for pick in 0..3 {
            was_blank |= finds_nothing(&rt, alloc, &mut store, disk, (call, pick), &whole);
        }
    }
    drop(whole);
    drop(store);
    assert_same(&rt, was_blank, true);
}
