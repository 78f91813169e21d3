//! Options of `serve` that don't go together.
ghost use Rattle.std.specs.Prelude.{◌≡◌};
ghost use Rattle.rambo_command_line.specs.Clashes.{words_of};

/// Why options of `serve` don't go together.
#[derive(Clone, Copy, PartialEq, Eq, Debug)]
pub enum Clash {
    /// `--endless` stands beside `--steps`.
    Steps,
    /// `--no-trace` stands without `--endless`.
    NoTrace,
    /// `--trace` stands without `--endless`.
    Trace,
    /// `--trace` stands beside `--no-trace`.
    TraceAndNone,
    /// `--sync` stands without `--trace`.
    Sync,
    /// `--resume` stands without `--trace`.
    Resume,
}

impl Clash {
    /// The words that report it to a user.
    pub fn words(self) -> &'static str
        ensures { result.now ≡ words_of self }
    {
        match self {
            Clash::Steps => "bad options: --endless excludes --steps",
            Clash::NoTrace => "bad options: --no-trace needs --endless",
            Clash::Trace => "bad options: --trace needs --endless",
            Clash::TraceAndNone => "bad options: --trace excludes --no-trace",
            Clash::Sync => "bad options: --sync needs --trace",
            Clash::Resume => "bad options: --resume needs --trace",
        }
    }
}
