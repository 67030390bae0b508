//! The style sheet: what both schemes share, and the colours of each.

use std::alloc::AllocError;

const FIXED: &str =
    "text{font:11px sans-serif}.n{font:600 12px monospace}.t{font:600 15px sans-serif}.m{font:10px monospace}\
.z{font-size:9px}.r{text-anchor:end}.q{text-anchor:middle}.rule,.grid,.cut,.bad{fill:none}\
.cut{stroke-dasharray:2 3}.bad{stroke-width:2.2}";

const LIGHT: &str =
    "text{fill:#1c1c1c}.back{fill:#ffffff}.s{fill:#666666}.rule{stroke:#c4c4c4}.grid{stroke:#ececec}\
.band{fill:#f1f1ee}.cut{stroke:#666666}.bad{stroke:#c00020}text.bad{fill:#c00020;stroke:none}";

const DARK: &str =
    "text{fill:#ececec}.back{fill:#16181b}.s{fill:#a2a6ab}.rule{stroke:#53575c}.grid{stroke:#26292d}\
.band{fill:#212429}.cut{stroke:#a2a6ab}.bad{stroke:#ff6b7d}text.bad{fill:#ff6b7d;stroke:none}";

/// What a kind of picture adds to the style sheet that all share. Those are: `n` a name, `t` the title, `m` small letters of one
/// width, `s` soft, `z` small, `r` ends at its place, `q` stands in the middle of its place, `rule` and `grid` thin lines, `cut` a
/// broken one, `band` the ground of an opened tick, `bad` a fault, `back` the ground.
#[derive(Clone, Copy, Debug)]
pub struct Sheet<'a> {
    /// Rules without a colour.
    pub fixed: &'a str,
    /// Colours on a light ground.
    pub light: &'a str,
    /// The same classes on a dark ground.
    pub dark: &'a str,
}

/// Adds the style sheet that all pictures share, with what one kind adds.
pub fn push_sheet(text: &mut String, sheet: &Sheet<'_>) -> Result<(), AllocError> {
    text.push_str(FIXED)?;
    text.push_str(LIGHT)?;
    text.push_str(sheet.light)?;
    text.push_str(sheet.fixed)?;
    text.push_str("@media(prefers-color-scheme:dark){")?;
    text.push_str(DARK)?;
    text.push_str(sheet.dark)?;
    text.push_str("}")
}
