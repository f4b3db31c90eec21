ghost use Rattle.std.specs.Fmt.{DisplaysOnOk};
ghost use Rattle.std.specs.Prelude.{◌≡◌, Some};
ghost use Rattle.plant_model.specs.Reasons.{at_place, bad_record, with_counts};
ghost use Rattle.plant_model.specs.declared.error.PlantError.{PlantError};

use line_base::Text;
use std::alloc::AllocError;
use std::fmt;

/// Why a plant is refused, in the order in which the refusals are tried. A `place` is the path of a key in the plant
/// file, counted from 1, as `stage[2].machine[1].time`.
#[derive(Drop)]
pub enum PlantError {
    /// The file is no TOML.
    NotToml,
    /// A key isn't one of the plant file's, or another key excludes it, or the key that it goes with is absent.
    UnknownKey { place: Text },
    /// A required key isn't there.
    Missing { place: Text },
    /// A value has another kind than its key's.
    WrongType { place: Text },
    /// A name or a file name breaks its rule, or a stage is called `feed` or `deliver`.
    BadName { place: Text },
    /// An earlier stage, or an earlier machine of the same stage, has the name.
    NameTwice { place: Text },
    /// A number is outside its limits, the policy is no policy, or a list that may not be empty is.
    OutOfRange { place: Text },
    /// A stage feeds no later stage.
    FeedsNotLater { place: Text },
    /// A stage other than the last feeds none.
    TwoFinals { place: Text },
    /// A record of the demand file or of the times file can't be used.
    BadRecord { file: Text, number: u64 },
    /// A machine has another number of job times than there are demands.
    TimesCount { place: Text, have: u64, need: u64 },
    /// The demand date of the job, counted from 1, is less than the one before.
    DemandOrder { job: u64 },
    /// There are fewer cards than starting stock that needs one each.
    TooFewCards { place: Text, cards: u64, stock: u64 },
    /// A loop's first or last stage doesn't exist, or the last isn't on the path of the first.
    LoopNotDownstream { place: Text },
    /// One of `stages`, `stations`, `demands`, `table`, `loops` and `observe` is above its limit.
    TooLarge { what: Text },
    /// Memory ran out.
    NoMemory,
}

/// The text says what is wrong and where, and the numbers that stand there and are needed.
impl fmt::Display for PlantError {
    ghost use Rattle.std.specs.Prelude.{Some};
    ghost use Rattle.plant_model.specs.Reasons.{plant_reason};

    ghost output = { λ error. Some (plant_reason error) };

    fn fmt<W: fmt::Write>(&self, f: &mut fmt::Formatter<W>) -> fmt::Result {
        match self {
            PlantError::NotToml => f.write_str("not toml"),
            PlantError::UnknownKey { place } => write_place(f, "unknown key", place),
            PlantError::Missing { place } => write_place(f, "missing", place),
            PlantError::WrongType { place } => write_place(f, "wrong type", place),
            PlantError::BadName { place } => write_place(f, "bad name", place),
            PlantError::NameTwice { place } => write_place(f, "name twice", place),
            PlantError::OutOfRange { place } => write_place(f, "out of range", place),
            PlantError::FeedsNotLater { place } => write_place(f, "feeds no later stage", place),
            PlantError::TwoFinals { place } => write_place(f, "two final stages", place),
            PlantError::BadRecord { file, number } => write_record(f, file, *number),
            PlantError::TimesCount { place, have, need } => write_counts(
                f, "times", place, *have, *need,
            ),
            PlantError::DemandOrder { job } => write!(f, "demand order: {job}"),
            PlantError::TooFewCards {
                place,
                cards,
                stock,
            } => write_counts(f, "too few cards", place, *cards, *stock),
            PlantError::LoopNotDownstream { place } => write_place(f, "loop not downstream", place),
            PlantError::TooLarge { what } => write_place(f, "too large", what),
            PlantError::NoMemory => f.write_str("memory"),
        }
    }
}

/// Writes what is wrong, and where.
fn write_place<W: fmt::Write>(f: &mut fmt::Formatter<W>, words: &str, place: &Text) -> fmt::Result
    ensures { DisplaysOnOk W.write_str_gives f.old result (Some (at_place words.now place.now)) f.new }
{
    let place = place.as_str();
    write!(f, "{words}: {place}")
}

/// Writes which record of a file can't be used.
fn write_record<W: fmt::Write>(f: &mut fmt::Formatter<W>, file: &Text, number: u64) -> fmt::Result
    ensures { DisplaysOnOk W.write_str_gives f.old result (Some (bad_record file.now number)) f.new }
{
    let file = file.as_str();
    write!(f, "bad record: {file} {number}")
}

/// Writes what is wrong, where, the number that stands there, and the one that is needed.
fn write_counts<W: fmt::Write>(
    f: &mut fmt::Formatter<W>,
    words: &str,
    place: &Text,
    have: u64,
    need: u64,
) -> fmt::Result
    ensures { DisplaysOnOk W.write_str_gives f.old result
        (Some (with_counts words.now place.now have need)) f.new }
{
    let place = place.as_str();
    write!(f, "{words}: {place} has {have}, needs {need}")
}

impl From<AllocError> for PlantError {
    ghost from_gives = { λ _ e. e ≡ PlantError.NoMemory };

    fn from(_: AllocError) -> Self {
        PlantError::NoMemory
    }
}
