/// A command that has a screen of its own, named by its first word.
#[derive(Clone, Copy)]
pub enum Topic {
    /// `lint`.
    Lint,
    /// `check`.
    Check,
    /// `summary`.
    Summary,
    /// `run`.
    Run,
    /// `table`.
    Table,
    /// `why`.
    Why,
    /// `chart`.
    Chart,
    /// `cards`.
    Cards,
    /// `curve`.
    Curve,
    /// `latest`.
    Latest,
    /// `cycle`.
    Cycle,
    /// `whatif`.
    WhatIf,
    /// `replay`.
    Replay,
    /// `resume`.
    Resume,
    /// `big`.
    Big,
}
