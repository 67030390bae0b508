//! The style sheet of a picture of a run.

use crate::kept::Kept;
use crate::layout::Layout;
use std::alloc::{AllocError, Global};
use tw_svg::{Sheet, push_sheet};

const LIGHT: &str = ".line{stroke:#4a6f94}.area{fill:#dfe8f1}.span{fill:#bcd0e4}.a{stroke:#1c1c1c}\
.o{fill:#d55e00}.i{fill:#0072b2}.e{fill:#009e73}.c{fill:#b4518e}";

const DARK: &str = ".line{stroke:#9cc0e4}.area{fill:#24313f}.span{fill:#3a5674}.a{stroke:#ececec}\
.o{fill:#f0883a}.i{fill:#56b4e9}.e{fill:#2fc99b}.c{fill:#e58fc2}";

const FIXED: &str =
    ".line,.a{fill:none}.line{stroke-width:1.5}.a{stroke-width:.9}.f{stroke-width:.7}\
.x{stroke-dasharray:2 1.5}.thin{stroke-width:.6}";

const LIT: &str = ".k{opacity:.65}.g:hover .a{opacity:1;stroke-width:1.6}";

/// How long all arrows are together.
fn arrows_length(kept: &Kept, layout: &Layout) -> i64 {
    let mut sum = 0i64;
    for round in kept.rounds.as_slice() {
        for arrow in round.arrows.as_slice() {
            let far = layout.line_of(arrow.to) - layout.line_of(arrow.from);
            sum = sum.saturating_add(far.size().tenths());
        }
    }
    sum
}

/// How strong arrows are: paler where they are many, by their length on the area of the picture.
fn fading(kept: &Kept, layout: &Layout) -> &'static str {
    let long = i128::from(arrows_length(kept, layout)).saturating_mul(1000);
    let area = i128::from(layout.staves_height().tenths()).saturating_mul(i128::from(
        layout.width.tenths(),
    ));
    if long < area.saturating_mul(3) {
        ".a{opacity:.65}.f{opacity:.39}"
    } else if long < area.saturating_mul(8) {
        ".a{opacity:.45}.f{opacity:.27}"
    } else {
        ".a{opacity:.25}.f{opacity:.15}"
    }
}

/// The style sheet.
pub(crate) fn sheet_of(alloc: Global, kept: &Kept, layout: &Layout) -> Result<String, AllocError> {
    let mut fixed = String::from_str(alloc, FIXED)?;
    fixed.push_str(fading(kept, layout))?;
    fixed.push_str(LIT)?;
    let mut text = String::new(alloc);
    let sheet = Sheet {
        fixed: fixed.as_str(),
        light: LIGHT,
        dark: DARK,
    };
    push_sheet(&mut text, &sheet)?;
    Ok(text)
}

/// The style sheet of a picture of courses alone.
pub(crate) fn plain_sheet(alloc: Global) -> Result<String, AllocError> {
    let mut text = String::new(alloc);
    let sheet = Sheet {
        fixed: FIXED,
        light: LIGHT,
        dark: DARK,
    };
    push_sheet(&mut text, &sheet)?;
    Ok(text)
}
