//! The texts that are the same in each picture of a kind.
ghost use Rattle.std.specs.Prelude.{◌≡◌};
ghost use Rattle.amo_svg.specs.Wording.{fixed_text, rows_key, jobs_key};

/// A text that is the same in each picture of a kind.
#[derive(Clone, Copy, Debug)]
pub(crate) enum Wording {
    /// How each picture begins, up to its size.
    SvgOpen,
    /// Its title, and the beginning of the description for a reader that doesn't see it.
    Title,
    /// The rest of the description.
    More,
    /// The colours.
    LightStyle,
    /// The colours for a reader that wants a dark ground.
    DarkStyle,
    /// The key of rows: lanes and discs,
    LanesKey,
    /// bars and squares,
    BarsKey,
    /// hands and diamonds,
    HandsKey,
    /// lines and crosses,
    LinesKey,
    /// and small squares.
    CrossesKey,
    /// The key of jobs: columns,
    ColumnsKey,
    /// lanes,
    NarrowLanesKey,
    /// and the band.
    BandKey,
    /// The title of the last lane of the band.
    FreeTitle,
}

/// Returns the text.
#[tactic(auto, unfolding(crate::specs::Wording::fixed_text))]
pub(crate) fn fixed_text(wording: Wording) -> &'static str
    ensures { result.now ≡ fixed_text wording }
{
    match wording {
        Wording::SvgOpen =>
            "<svg xmlns=\"http://www.w3.org/2000/svg\" lang=\"en\" role=\"img\" font-family=\"monospace\" font-size=\"12\" viewBox=\"0 0 ",
        Wording::Title => "<title>Run of a plan</title>\n<desc>",
        Wording::More => "\nThe moves as text: amo_show trace</desc>\n",
        Wording::LightStyle =>
            "<style>\n.g{fill:#fff}.i{fill:#1f2328}.f{fill:#59636e}.c{fill:#0072b2}.x{fill:#b84a00}\n.li,.lf,.lc,.lx,.lb,.lp{fill:none}\n.li{stroke:#1f2328}.lf{stroke:#59636e}.lc{stroke:#0072b2}.lx{stroke:#b84a00}.lb{stroke:#8c959f}.lp{stroke:#c4ccd4}\n",
        Wording::DarkStyle =>
            "@media(prefers-color-scheme:dark){\n.g{fill:#0d1117}.i{fill:#e6edf3}.f{fill:#9198a1}.c{fill:#56b4e9}.x{fill:#e69f00}\n.li{stroke:#e6edf3}.lf{stroke:#9198a1}.lc{stroke:#56b4e9}.lx{stroke:#e69f00}.lb{stroke:#6e7681}.lp{stroke:#3d444d}\n}\n</style>\n",
        Wording::LanesKey =>
            "A lane is a worker, a row a move. Disc: it announces a job, and the wide",
        Wording::BarsKey =>
            "bar is how long that stands. Squares: it claims a job, then has done it;",
        Wording::HandsKey =>
            "between them it has the job in hand. Diamond: a load that sees a job, with",
        Wording::LinesKey =>
            "a line to whose word it is, thick where it makes the attempt fail. Cross:",
        Wording::CrossesKey => "the attempt has failed. Small square: a load of 0.",
        Wording::ColumnsKey =>
            "Down are the moves. Left, a column is a job: marked from its claim on, grey once it is done, empty while unclaimed.",
        Wording::NarrowLanesKey =>
            "Right, a lane is a worker: a tick on the left is a claim, on the right a failed attempt. Below, how many it has done.",
        Wording::BandKey => {
            "Under the columns: who has claimed a job, by a mark in that worker's lane, a low one where it hasn't done it; none: nobody."
        }
        Wording::FreeTitle => "<g><title>unclaimed</title>\n",
    }
}

/// Returns the lines on the marks in a picture of rows.
pub(crate) fn rows_key() -> [Wording; 5]
    ensures { result ≡ rows_key }
{
    [
        Wording::LanesKey,
        Wording::BarsKey,
        Wording::HandsKey,
        Wording::LinesKey,
        Wording::CrossesKey,
    ]
}

/// Returns the lines on the marks in a picture of jobs.
pub(crate) fn jobs_key() -> [Wording; 3]
    ensures { result ≡ jobs_key }
{
    [
        Wording::ColumnsKey,
        Wording::NarrowLanesKey,
        Wording::BandKey,
    ]
}
