//! The lines of faults.
ghost use Rattle.std.specs.List.{flat_map};
ghost use Rattle.std.specs.Prelude.{◌≡◌, ◌++◌, List, string_bytes, IfOk, OnOk};
ghost use Rattle.plant_keys.specs.Found.{AreFaults};
ghost use Rattle.plant_keys.specs.declared.fault.Fault.{Fault};
ghost use Rattle.plant_lint.specs.Texts.{fault_line, more_line, fault_lines};

use crate::remarks::Remarks;
use plant_keys::{Fault, FaultList, MOST_FAULTS};
use std::alloc::{AllocError, Global};

/// The lines of faults, 200 at most, with what is said behind each, and then how many more there are.
pub fn lines_of<R: Remarks>(
    alloc: Global,
    remarks: &R,
    list: &FaultList,
) -> Result<String, AllocError>
    ensures { (faults : List Fault) → AreFaults list.now faults
        → IfOk result (λ text. string_bytes text ≡ fault_lines (R.remark remarks.now) faults) }
{
    let mut text = String::new(alloc);
    add_lines(alloc, remarks, &mut text, list)?;
    Ok(text)
}

/// Adds the lines of faults.
fn add_lines<R: Remarks>(
    alloc: Global,
    remarks: &R,
    text: &mut String,
    list: &FaultList,
) -> Result<(), AllocError>
    ensures { (faults : List Fault) → AreFaults list.now faults
        → OnOk result (string_bytes text.new ≡ string_bytes text.old ++ fault_lines (R.remark remarks.now) faults) }
{
    add_each(alloc, remarks, text, list.kept.as_slice())?;
    add_count(alloc, text, list.count.saturating_sub(MOST_FAULTS as u64))
}

/// Adds a line for each of these faults.
fn add_each<R: Remarks>(
    alloc: Global,
    remarks: &R,
    text: &mut String,
    faults: &[Fault],
) -> Result<(), AllocError>
    ensures { OnOk result (string_bytes text.new ≡ string_bytes text.old ++ flat_map (fault_line (R.remark remarks.now)) faults.now) }
{
    for n in 0..faults.len() {
        add_line(alloc, remarks, text, &faults[n])?;
    }
    Ok(())
}

/// Adds the line of a fault.
fn add_line<R: Remarks>(
    alloc: Global,
    remarks: &R,
    text: &mut String,
    fault: &Fault,
) -> Result<(), AllocError>
    ensures { OnOk result (string_bytes text.new ≡ string_bytes text.old ++ fault_line (R.remark remarks.now) fault.now) }
{
    let error = &fault.error;
    let wants = &fault.wants;
    let refusal = format!(in alloc; "plant: {error}")?;
    text.push_str(refusal.as_str())?;
    remarks.add_remark(alloc, text, error)?;
    let wanted = format!(in alloc; "{wants}\n")?;
    text.push_str(wanted.as_str())
}

/// Adds how many more faults there are, if there are any.
fn add_count(alloc: Global, text: &mut String, more: u64) -> Result<(), AllocError>
    ensures { OnOk result (string_bytes text.new ≡ string_bytes text.old ++ more_line more) }
{
    if more == 0 {
        return Ok(());
    }
    let line = format!(in alloc; "and {more} more\n")?;
    text.push_str(line.as_str())
}
