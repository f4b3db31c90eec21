ghost use Rattle.std.specs.Prelude.{◌≡◌, Some, IsTrue, OnOk, IsErrOf};
ghost use Rattle.outside_io.specs.Contents.{SameFiles, OthersStay, IsTorn};
ghost use Rattle.outside_io.specs.Faults.{Rose, NeverFall};
ghost use Rattle.line_runs.specs.Store.{text_of, AsksToWrite};

use checkpoint::write_state;
use line_core::State;
use live_check::Live;
use outside_io::{Store, StoreError};
use std::alloc::Global;

/// Gives a file the text of a state, from which a run can go on. `Failed` comes only from the
/// store, where its count of failed writes of this file rose; the file is then as it was, or holds
/// a prefix of the text.
pub fn save_state<S: Store>(
    alloc: Global,
    live: &Live,
    state: &State,
    store: &mut S,
    file: &str,
) -> Result<(), StoreError>
    requires { live.now.graph ≡ state.now.graph }
    ensures tells { AsksToWrite (S.shown store.old).asked (S.shown store.new).asked
        file.now (text_of state.now) result }
    ensures written { OnOk result (IsTrue S.tells
        → (S.shown store.new).files file.now ≡ Some (text_of state.now)) }
    ensures others_stay { OthersStay S.tells (S.shown store.old).files (S.shown store.new).files
        file.now }
    ensures torn { IsErrOf result StoreError.Failed → IsTrue S.tells
        → IsTorn ((S.shown store.old).files file.now) ((S.shown store.new).files file.now)
        (text_of state.now) }
    ensures no_memory { IsErrOf result StoreError.NoMemory
        → SameFiles S.tells (S.shown store.old).files (S.shown store.new).files }
    ensures never_too_long { ¬ (IsErrOf result StoreError.TooLong) }
    ensures cause { IsErrOf result StoreError.Failed
        → Rose ((S.shown store.old).write_faults file.now)
        ((S.shown store.new).write_faults file.now) }
    ensures taken_stays { (S.shown store.new).taken ≡ (S.shown store.old).taken }
    ensures read_faults_stay_or_rise { NeverFall (S.shown store.old).read_faults
        (S.shown store.new).read_faults }
    ensures write_faults_stay_or_rise { NeverFall (S.shown store.old).write_faults
        (S.shown store.new).write_faults }
{
    let text = write_state(alloc, live, state)?;
    store.write(file, text.as_slice())
}
