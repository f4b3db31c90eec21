//! How a call of the machine that was refused is counted.
ghost use Rattle.std.specs.Prelude.{◌≡◌, ◌≤◌, ◌+◌, ◌-◌, ◌^◌, min, Ok, is_ok, IfOk, IfErr, OnOk, OnErr};
ghost use Rattle.outside_io.specs.declared.store.StoreError.{StoreError};

use crate::store::StoreError;

/// The answer of the machine, where each error is a fault that is counted.
pub fn count_fault<T: Drop, E: Drop>(
    answer: Result<T, E>,
    faults: &mut u64,
) -> Result<T, StoreError>
    ensures same { is_ok result ≡ is_ok answer }
    ensures value { IfOk result (λ value. answer ≡ Ok value) }
    ensures failed { IfErr result (λ error. error ≡ StoreError.Failed) }
    ensures stays { OnOk result (faults.new ≡ faults.old) }
    ensures stays_or_rises { faults.old ≤ faults.new }
    ensures rises { OnErr result (faults.new ≡ min (faults.old + 1) (2 ^ 64 - 1)) }
{
    match answer {
        Ok(value) => Ok(value),
        Err(_) => {
            *faults = faults.saturating_add(1);
            Err(StoreError::Failed)
        }
    }
}
