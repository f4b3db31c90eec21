/// A text, and behind it the lines of these statuses that the program ends with, each by its number. `of_plants` are
/// those of every command that asks a plant, beside its own; `of_no_file` those of a command that reads no file.
macro_rules! with_statuses {
    ($text:literal; $($status:tt)*) => {
        with_statuses!(@lines [$text] $($status)*)
    };
    (@lines [$($line:literal)*]) => {
        concat!($($line),*)
    };
    (@lines [$($line:literal)*] of_plants) => {
        with_statuses!(@lines [$($line)*] 1 2 3 4 5 6 9 10)
    };
    (@lines [$($line:literal)*] of_no_file) => {
        with_statuses!(@lines [$($line)*] 1 2 6 9)
    };
    (@lines [$($line:literal)*] 0 $($rest:tt)*) => {
        with_statuses!(@lines
            [$($line)* "status 0   done\n"]
            $($rest)*)
    };
    (@lines [$($line:literal)*] 1 $($rest:tt)*) => {
        with_statuses!(@lines
            [$($line)* "status 1   the words are no UTF-8\n"]
            $($rest)*)
    };
    (@lines [$($line:literal)*] 2 $($rest:tt)*) => {
        with_statuses!(@lines
            [$($line)* "status 2   the words are no command\n"]
            $($rest)*)
    };
    (@lines [$($line:literal)*] 3 $($rest:tt)*) => {
        with_statuses!(@lines
            [$($line)* "status 3   the plant is refused\n"]
            $($rest)*)
    };
    (@lines [$($line:literal)*] 4 $($rest:tt)*) => {
        with_statuses!(@lines
            [$($line)* "status 4   the plant has a circuit without a token\n"]
            $($rest)*)
    };
    (@lines [$($line:literal)*] 5 $($rest:tt)*) => {
        with_statuses!(@lines
            [$($line)* "status 5   a file can't be read or written\n"]
            $($rest)*)
    };
    (@lines [$($line:literal)*] 6 $($rest:tt)*) => {
        with_statuses!(@lines
            [$($line)* "status 6   the output can't be written\n"]
            $($rest)*)
    };
    (@lines [$($line:literal)*] 7 $($rest:tt)*) => {
        with_statuses!(@lines
            [$($line)* "status 7   the checkpoint is of no run of the plant\n"]
            $($rest)*)
    };
    (@lines [$($line:literal)*] 8 $($rest:tt)*) => {
        with_statuses!(@lines
            [$($line)* "status 8   a machine has a list of times, and so the plant no cycle time\n"]
            $($rest)*)
    };
    (@lines [$($line:literal)*] 9 $($rest:tt)*) => {
        with_statuses!(@lines
            [$($line)* "status 9   out of memory\n"]
            $($rest)*)
    };
    (@lines [$($line:literal)*] 10 $($rest:tt)*) => {
        with_statuses!(@lines
            [$($line)* "status 10  a file is longer than 64 MiB, or a checkpoint longer than 160 MiB\n"]
            $($rest)*)
    };
    (@lines [$($line:literal)*] 11 $($rest:tt)*) => {
        with_statuses!(@lines
            [$($line)* "status 11  the schedule can't be followed\n"]
            $($rest)*)
    };
    (@lines [$($line:literal)*] 12 $($rest:tt)*) => {
        with_statuses!(@lines
            [$($line)* "status 12  the slots can't be read or written\n"]
            $($rest)*)
    };
    (@lines [$($line:literal)*] 13 $($rest:tt)*) => {
        with_statuses!(@lines
            [$($line)* "status 13  no count of cards keeps the wait\n"]
            $($rest)*)
    };
    (@lines [$($line:literal)*] 14 $($rest:tt)*) => {
        with_statuses!(@lines
            [$($line)* "status 14  nothing is saved in the slots\n"]
            $($rest)*)
    };
    (@lines [$($line:literal)*] 16 $($rest:tt)*) => {
        with_statuses!(@lines
            [$($line)* "status 16  the edits can't be followed\n"]
            $($rest)*)
    };
    (@lines [$($line:literal)*] 17 $($rest:tt)*) => {
        with_statuses!(@lines
            [$($line)* "status 17  the plant has no single count of cards\n"]
            $($rest)*)
    };
    (@lines [$($line:literal)*] 18 $($rest:tt)*) => {
        with_statuses!(@lines
            [$($line)* "status 18  no station has the label, or there are fewer jobs\n"]
            $($rest)*)
    };
    (@lines [$($line:literal)*] 19 $($rest:tt)*) => {
        with_statuses!(@lines
            [$($line)* "status 19  a job waits longer than it may\n"]
            $($rest)*)
    };
    (@lines [$($line:literal)*] 20 $($rest:tt)*) => {
        with_statuses!(@lines
            [$($line)* "status 20  the picture has more than 20,000 bars and lanes\n"]
            $($rest)*)
    };
}

pub(crate) use with_statuses;
