ghost use Rattle.std.specs.Fmt.{DisplaysOnOk};
ghost use Rattle.std.specs.Prelude.{◌++◌, codes, Some};

use line_base::Text;
use plant_model::PlantError;
use std::fmt;

/// What is wanted at the place of a refusal.
#[derive(Drop)]
pub enum Wants {
    /// The refusal says all.
    Nothing,
    /// A text.
    AText,
    /// A whole number.
    ANumber,
    /// A list of whole numbers.
    ListOfNumbers,
    /// A list of tables.
    ListOfTables,
    /// A number between two.
    Between { least: u64, most: u64 },
    /// One of the four words for a policy.
    APolicy,
    /// At least one element.
    AnElement,
    /// A name.
    AName,
    /// Another name than the one there, which is reserved.
    FreeName,
    /// The name of a file.
    AFileName,
    /// The name of a later stage in place of this one.
    LaterThan { name: Text },
    /// A date: the file has none.
    ADate,
    /// A number in place of this text, which is a field as far as it is printable.
    NumberFor { text: Text },
    /// A field in this column.
    AField { column: u32 },
}

/// What is wrong with a plant file at one place, and what is wanted there.
#[derive(Drop)]
pub struct Fault {
    /// The refusal.
    pub error: PlantError,
    /// What is wanted.
    pub wants: Wants,
}

/// The text stands right behind that of the refusal.
impl fmt::Display for Wants {
    ghost use Rattle.std.specs.Prelude.{Some};
    ghost use Rattle.plant_keys.specs.Wants.{wants_text};

    ghost output = { λ wants. Some (wants_text wants) };

    fn fmt<W: fmt::Write>(&self, f: &mut fmt::Formatter<W>) -> fmt::Result {
        match self {
            Wants::Nothing => Ok(()),
            Wants::AText => f.write_str(" wants a text"),
            Wants::ANumber => f.write_str(" wants a whole number"),
            Wants::ListOfNumbers => f.write_str(" wants a list of whole numbers"),
            Wants::ListOfTables => f.write_str(" wants a list of tables"),
            Wants::Between { least, most } => write!(f, " wants {least} to {most}"),
            Wants::APolicy => f.write_str(" wants kanban, conwip, base-stock or extended"),
            Wants::AnElement => f.write_str(" wants at least one"),
            Wants::AName => f.write_str(" wants 1 to 24 of a-z 0-9 _ -, a letter first"),
            Wants::FreeName => f.write_str(" is taken"),
            Wants::AFileName => f.write_str(" is no file name"),
            Wants::LaterThan { name } => write_name(f, name),
            Wants::ADate => f.write_str(" has no date"),
            Wants::NumberFor { text } => write_quoted(f, text),
            Wants::AField { column } => write!(f, " has no column {column}"),
        }
    }
}

/// Writes a name behind a blank.
fn write_name<W: fmt::Write>(f: &mut fmt::Formatter<W>, name: &Text) -> fmt::Result
    ensures { DisplaysOnOk W.write_str_gives f.old result (Some (codes " " ++ name.now)) f.new }
{
    let name = name.as_str();
    write!(f, " {name}")
}

/// Writes the text that stands there.
fn write_quoted<W: fmt::Write>(f: &mut fmt::Formatter<W>, text: &Text) -> fmt::Result
    ensures { DisplaysOnOk W.write_str_gives f.old result (Some (codes " has \"" ++ (text.now ++ codes "\""))) f.new }
{
    let text = text.as_str();
    write!(f, " has \"{text}\"")
}
