ghost use Rattle.std.specs.Prelude.{◌≡◌, false, Some, Ok, IfOk, IfErr};
ghost use Rattle.command_line.specs.Options.{has_stand, texts};
ghost use Rattle.command_line.specs.Ranges.{IsInRange};
ghost use Rattle.command_line.specs.Words.{command_of};
ghost use Rattle.pull_cli.specs.Ended.{Ended};
ghost use Rattle.pull_cli.specs.Ends.{Ends, Finishes, IsStatusAfter, IsWrittenInParts, Writes, WritesRefusal};
ghost use Rattle.live_plant.specs.Refusal.{status_of, text_of};
ghost use Rattle.live_plant.specs.declared.refusals.refusal.Refusal.TheVariants.{NoMemory};
ghost use Rattle.pull_cli.specs.Files.{FilesStay};
ghost use Rattle.pull_cli.specs.RunReports.{RunReports};
ghost use Rattle.pull_cli.specs.StopsAndResumes.{StopsAndResumes};
ghost use Rattle.pull_cli.specs.StopsWhereAsked.{StopsWhereAsked};
ghost use Rattle.pull_cli.specs.Verdict.{CommandDoes, IsWordsRefusal, OfWords};
ghost use Rattle.live_plant.specs.Actions.{disk_over, Does};
ghost use Rattle.live_plant.specs.Outside.{store_over, sink_over};

use crate::actions::{do_still, stand_plant};
use answers::{Answer, Unwritten, put_line, put_text};
use command_line::{Command, WordsError, has_stand, read_words};
use crash_disk::Disk;
use line_workers::Gate;
use live_plant::{OUT_OF_MEMORY, Refusal};
use outside_io::{Failed, Sink, Store};
use std::alloc::Global;
use std::sync::Wait;
use std::thread::Threads;

/// Does what the words after the program's name ask for, and answers the status that the program
/// ends with. The words are read first, then the plant file and what it names, then the command's
/// own file or the slots. Nothing but the line of a refusal is written before all of this is done
/// and tried. Each status but 0 and 6 has written exactly its one line, or of `lint` its lines, behind
/// the rows that were found where memory runs out in a curve. No file changes but the one in which a
/// run that is asked to stop saves, and that one only with status 0, 5 or 6.
///
/// Where a word is `--stand` it may wait for standing workers, and doesn't promise to return. Where none is, it
/// is `pull_still`.
pub fn pull<R: Threads + Wait + Sync, S: Store, K: Sink, G: Gate, D: Disk>(
    rt: &R,
    alloc: Global,
    words: &[String],
    store: &mut S,
    sink: &mut K,
    gate: &G,
    disk: &mut D,
) -> u8
    ensures ends { Ends (texts words.now)
        (store_over S.tells (S.shown store.old) (S.shown store.new))
        (sink_over (K.shown sink.old) (K.shown sink.new))
        (disk_over D.tells (D.shown disk.old) (D.shown disk.new)) result }
    ensures reports { RunReports (texts words.now)
        (store_over S.tells (S.shown store.old) (S.shown store.new))
        (sink_over (K.shown sink.old) (K.shown sink.new)) result }
    ensures stops { StopsAndResumes (texts words.now)
        (store_over S.tells (S.shown store.old) (S.shown store.new))
        (sink_over (K.shown sink.old) (K.shown sink.new)) result }
    ensures stops_where { StopsWhereAsked (texts words.now)
        (store_over S.tells (S.shown store.old) (S.shown store.new))
        (sink_over (K.shown sink.old) (K.shown sink.new)) result }
    ensures files { FilesStay (texts words.now)
        (store_over S.tells (S.shown store.old) (S.shown store.new))
        (sink_over (K.shown sink.old) (K.shown sink.new)) result }
{
    if has_stand(words) {
        let outcome = do_words(rt, alloc, words, store, gate, disk);
        write_outcome(rt, alloc, outcome, sink)
    } else {
        pull_still(rt, alloc, words, store, sink, gate, disk)
    }
}

/// `pull`, for words of which none is `--stand`: it promises the same, waits for nothing, and returns.
pub fn pull_still<R: Threads + Sync, S: Store, K: Sink, G: Gate, D: Disk>(
    rt: &R,
    alloc: Global,
    words: &[String],
    store: &mut S,
    sink: &mut K,
    gate: &G,
    disk: &mut D,
) -> u8
    requires still { has_stand (texts words.now) ≡ false }
    ensures ended { Ended (texts words.now)
        (store_over S.tells (S.shown store.old) (S.shown store.new))
        (sink_over (K.shown sink.old) (K.shown sink.new))
        (disk_over D.tells (D.shown disk.old) (D.shown disk.new)) result }
{
    let outcome = do_words_still(rt, alloc, words, store, gate, disk);
    write_outcome(rt, alloc, outcome, sink)
}

/// Writes what the words answer, and answers the status.
fn write_outcome<R: Threads + Sync, K: Sink>(
    rt: &R,
    alloc: Global,
    outcome: Result<Answer, Refusal>,
    sink: &mut K,
) -> u8
    ensures { Finishes (sink_over (K.shown sink.old) (K.shown sink.new)) outcome result }
{
    match outcome {
        Ok(answer) => write_answer(rt, alloc, answer, sink),
        Err(refusal) => write_refusal(alloc, &refusal, sink),
    }
}

/// Writes what a command answers, and answers the status.
fn write_answer<R: Threads + Sync, K: Sink>(
    rt: &R,
    alloc: Global,
    answer: Answer,
    sink: &mut K,
) -> u8
    ensures { Finishes (sink_over (K.shown sink.old) (K.shown sink.new)) (Ok answer) result }
{
    match answer.write(rt, alloc, sink) {
        Ok(()) => 0,
        Err(Unwritten::Failed) => 6,
        Err(Unwritten::NoMemory) => write_no_memory(sink),
    }
}

/// Writes a refusal, and answers the status. What follows a write of the checkpoint is written in parts and takes no
/// memory, so that the status says what became of its file.
#[tactic(auto, using(crate::proofs::WriteStatus::writes))]
fn write_refusal<K: Sink>(alloc: Global, refusal: &Refusal, sink: &mut K) -> u8
    ensures { WritesRefusal (sink_over (K.shown sink.old) (K.shown sink.new)) refusal.now result }
{
    match refusal {
        Refusal::StoreFault { file } => {
            let written = put_line(sink, b"store: ", file.as_str().as_bytes());
            status_after(written, refusal.status())
        }
        _ => write_line(alloc, refusal, sink),
    }
}

/// Writes the line of a refusal, or that of no memory where there is none for it, and answers the status.
#[tactic(auto, using(crate::proofs::WriteStatus::writes))]
fn write_line<K: Sink>(alloc: Global, refusal: &Refusal, sink: &mut K) -> u8
    requires { ¬ (IsWrittenInParts refusal.now) }
    ensures { WritesRefusal (sink_over (K.shown sink.old) (K.shown sink.new)) refusal.now result }
{
    match refusal.text(alloc) {
        Ok(line) => status_after(put_text(sink, line.as_slice()), refusal.status()),
        Err(_) => write_no_memory(sink),
    }
}

/// Writes that there is no memory, and answers the status.
#[tactic(auto, using(crate::proofs::WriteStatus::writes))]
fn write_no_memory<K: Sink>(sink: &mut K) -> u8
    ensures { Writes (sink_over (K.shown sink.old) (K.shown sink.new)) (text_of NoMemory) (status_of NoMemory) result }
{
    let written = put_text(sink, OUT_OF_MEMORY.as_bytes());
    status_after(written, Refusal::NoMemory.status())
}

/// The status after bytes were written to a sink: 6 where it failed.
fn status_after(written: Result<(), Failed>, status: u8) -> u8
    ensures { IsStatusAfter written status result }
{
    match written {
        Ok(()) => status,
        Err(Failed) => 6,
    }
}

/// Does what the words ask for, by standing workers where they ask for them.
fn do_words<R: Threads + Wait + Sync, S: Store, G: Gate, D: Disk>(
    rt: &R,
    alloc: Global,
    words: &[String],
    store: &mut S,
    gate: &G,
    disk: &mut D,
) -> Result<Answer, Refusal>
    ensures { Does (store_over S.tells (S.shown store.old) (S.shown store.new))
        (disk_over D.tells (D.shown disk.old) (D.shown disk.new))
        (OfWords S.tells (S.shown store.old).files (command_of (texts words.now))) result }
{
    let command = command_in(alloc, words)?;
    do_command(rt, alloc, command, store, gate, disk)
}

/// Does what the words ask for, by bursts.
fn do_words_still<R: Threads + Sync, S: Store, G: Gate, D: Disk>(
    rt: &R,
    alloc: Global,
    words: &[String],
    store: &mut S,
    gate: &G,
    disk: &mut D,
) -> Result<Answer, Refusal>
    ensures { Does (store_over S.tells (S.shown store.old) (S.shown store.new))
        (disk_over D.tells (D.shown disk.old) (D.shown disk.new))
        (OfWords S.tells (S.shown store.old).files (command_of (texts words.now))) result }
{
    let command = command_in(alloc, words)?;
    do_still(rt, alloc, command, store, gate, disk)
}

/// The command that the words are, or the refusal where there is none, or no memory for it.
fn command_in(alloc: Global, words: &[String]) -> Result<Command, Refusal>
    ensures command { IfOk result (λ command. command_of (texts words.now) ≡ Some command) }
    ensures range { IfOk result IsInRange }
    ensures none { IfErr result (IsWordsRefusal (command_of (texts words.now))) }
{
    match read_words(alloc, words) {
        Ok(command) => Ok(command),
        Err(WordsError::Usage) => Err(Refusal::Usage),
        Err(WordsError::NoMemory) => Err(Refusal::NoMemory),
    }
}

/// Does what a command asks for, by standing workers where it asks for them.
fn do_command<R: Threads + Wait + Sync, S: Store, G: Gate, D: Disk>(
    rt: &R,
    alloc: Global,
    command: Command,
    store: &mut S,
    gate: &G,
    disk: &mut D,
) -> Result<Answer, Refusal>
    requires { IsInRange command }
    ensures { CommandDoes (store_over S.tells (S.shown store.old) (S.shown store.new))
        (disk_over D.tells (D.shown disk.old) (D.shown disk.new)) command result }
{
    match command {
        Command::Standing { plant, workers } => {
            stand_plant(rt, alloc, store, &plant, workers, gate)
        }
        command => do_still(rt, alloc, command, store, gate, disk),
    }
}
