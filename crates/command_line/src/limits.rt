ghost use Rattle.std.specs.Prelude.{◌≡◌};
ghost use Rattle.command_line.specs.Numbers.{most_firings, longest_wait, most_counts};

/// The most firings that `--stop-after` and `--every` take.
pub const MAX_FIRINGS: u64 = 1_000_000;

/// The longest wait that `cards` and `latest` take, in the plant's unit of time.
pub const MAX_WAIT: u64 = 10_000_000_000_000_000;

/// The most counts of cards that `curve` tries.
pub const MAX_COUNTS: u32 = 1_000;

/// Each constant is the number that the definitions cite.
pub fn limits_are_those_of_the_definitions()
    ensures firings { MAX_FIRINGS ≡ most_firings }
    ensures wait { MAX_WAIT ≡ longest_wait }
    ensures counts { MAX_COUNTS ≡ most_counts }
{}
