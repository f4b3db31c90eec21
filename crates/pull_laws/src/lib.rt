//! Laws on calls of the top call of `pull`.
#![tactic(auto)]

ghost use Rattle.pull_laws.specs.Recorded.{EndsAsOverFiles};
ghost use Rattle.pull_laws.specs.Resuming.{ResumingReports, ResumingWritesTheSame};
ghost use Rattle.pull_laws.specs.ResumingRecorded.{ResumingRecordedReports, ResumingRecordedWritesTheSame};
ghost use Rattle.pull_laws.specs.Verdicts.{HaveOneVerdict, EndsWithVerdict, EndAlike, IsComplete};

/// The law *Resuming writes that same report*, on two calls of `pull`: where a run was asked to stop
/// and has saved, a call that resumes it over the files that it left writes the report of the same
/// plant over the least solution, and so the bytes that a run writes which never stops. It ends
/// otherwise only where a file couldn't be read, the sink failed, or memory ran out.
///
/// It runs nothing: its contract is the law.
pub fn resuming_writes_that_same_report()
    ensures reports { ResumingReports }
    ensures same { ResumingWritesTheSame }
{}

/// The law *Verdict*, on the calls of `pull` over stores whose files are known: words have at most one
/// verdict over files, and every call for these words over these files ends with it, or has failed: a
/// file couldn't be read or written, the sink or the disk failed, or memory ran out. So two calls end
/// with one status, where neither has failed; and *Completeness*: where one ends with status 0, every
/// call does that hasn't failed.
///
/// It speaks of all words. For `resume --slots` it is known too what the disk holds, and the
/// verdict is that over what is saved in its slots.
///
/// It runs nothing: its contract is the law.
pub fn calls_end_with_the_verdict()
    ensures one { HaveOneVerdict }
    ensures verdict { EndsWithVerdict }
    ensures alike { EndAlike }
    ensures complete { IsComplete }
{}

/// A law on one call of `pull`, over a store whose files aren't known: it ends as over a store whose
/// files are known, whatever they are, if only its reads can have been answered from them and its writes
/// change them. So what is proved of files that are known holds of those of the machine.
///
/// It runs nothing: its contract is the law.
pub fn calls_end_as_over_files()
    ensures { EndsAsOverFiles }
{}

/// The law *Resuming writes that same report* over stores whose files aren't known, as that of the
/// machine: where the second call has read what the first has read and written, it writes the report
/// of the first one's plant, or ends because a file couldn't be read, the sink failed, or memory ran
/// out.
///
/// It runs nothing: its contract is the law.
pub fn resuming_writes_that_same_report_by_the_records()
    ensures reports { ResumingRecordedReports }
    ensures same { ResumingRecordedWritesTheSame }
{}
