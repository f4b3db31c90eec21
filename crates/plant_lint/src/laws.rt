ghost use Rattle.std.specs.Prelude.{◌≡◌, ℕ, List, Option, is_ok};
ghost use Rattle.plant_file.specs.declared.draft.DraftPlant.{DraftPlant};
ghost use Rattle.plant_file.specs.Reading.{reading};
ghost use Rattle.plant_file.specs.Finish.{bad_records};
ghost use Rattle.plant_keys.specs.Faults.{errors};
ghost use Rattle.plant_lint.specs.Records.{record_faults};
ghost use Rattle.plant_lint.specs.declared.lint.Lint.{Lint};
ghost use Rattle.plant_lint.specs.FileLints.{LintsFile};
ghost use Rattle.plant_lint.specs.Laws.{is_sound};

/// A law of the definitions: lint finds nothing wrong with a file by itself exactly where it is read, and the bad records
/// of its files are the refusals of class 10.
pub fn faults_are_refusals()
    ensures files { (bytes : List ℕ) (lint : Lint) → LintsFile bytes lint
        → is_sound lint ≡ is_ok (reading bytes) }
    ensures records { (d : DraftPlant) (demands times : Option (List ℕ))
        → errors (record_faults d demands times) ≡ bad_records d demands times }
{}
