//! What edits change of the dates of a live plant.
ghost use Rattle.std.specs.Prelude.{◌≡◌, ◌⊎◌, Err, IfErr, IfOk};
ghost use Rattle.commands.specs.Answers.{IsPageOf, IsRefusedLine, IsWhatIf};
ghost use Rattle.commands.specs.Dated.{IsFirstSheet};
ghost use Rattle.live_plant.specs.LivePlant.{IsLivePlant};

use crate::dates::least_table;
use answers::{Answer, Changes};
use live_check::Live;
use live_plant::{LivePlant, Refusal};
use std::alloc::{AllocError, Global};
use what_if::{Sheet, follow_edits};

/// The dates of a live plant that edits change.
pub(crate) fn what_if(alloc: Global, line: LivePlant, edits: &[u8]) -> Result<Answer, Refusal>
    requires { IsLivePlant line }
    ensures { IsWhatIf line.plant edits.now result ⊎ (result ≡ Err Refusal.NoMemory) }
{
    let LivePlant { plant, live } = line;
    drop(plant);
    match settled_sheet(alloc, &live, edits) {
        Ok(sheet) => {
            let changes = Changes::new(alloc, live, sheet)?;
            Ok(Answer::Changed { changes })
        }
        Err(refusal) => {
            drop(live);
            Err(refusal)
        }
    }
}

/// The dates of a live graph that edits change, settled.
fn settled_sheet(alloc: Global, live: &Live, edits: &[u8]) -> Result<Sheet, Refusal>
    ensures made_for { IfOk result (λ sheet. live.now ≡ sheet.live) }
    ensures settled { IfOk result (IsPageOf live.now.graph edits.now) }
    ensures refused { IfErr result
        (λ refusal. IsRefusedLine live.now.graph edits.now (Err refusal) ⊎ (refusal ≡ Refusal.NoMemory)) }
{
    let mut sheet = first_sheet(alloc, live)?;
    match follow_edits(&mut sheet, live, edits) {
        Ok(()) => {
            sheet.settle(live);
            Ok(sheet)
        }
        Err(refused) => {
            drop(sheet);
            Err(Refusal::from(refused))
        }
    }
}

/// The dates of a live graph, of which no edit changes one.
fn first_sheet(alloc: Global, live: &Live) -> Result<Sheet, AllocError>
    ensures { IfOk result (IsFirstSheet live.now) }
{
    let table = least_table(alloc, live)?;
    let sheet = Sheet::new(alloc, live, &table);
    drop(table);
    sheet
}
