//! The style sheet: what this kind of picture adds to what all pictures share.

use tw_svg::Sheet;

/// Classes: `k0` to `k7` are filled with the colour of a component, `w0` to `w7` drawn with it, 7 being that of none; `course`
/// where a component stands, `fall` a rollback, `msg` a message, `coin` a delivery, `gvt` global virtual time, `past` what is
/// below it, `commit` what is committed, `no` a refused action; `gone` what was undone later.
pub(crate) static SHEET: Sheet<'static> = Sheet {
    fixed: FIXED,
    light: LIGHT,
    dark: DARK,
};

const FIXED: &str = "\
.fall,.course,.msg,.gvt,.commit,.no{fill:none}.course{stroke-width:1.4}.msg{stroke-width:.9;opacity:.75}\
.neg{stroke-dasharray:4 2.5}.hollow{stroke-width:1.5}.coin{stroke-width:1.1}.gvt{stroke-width:1.8}\
.commit{stroke-width:4;opacity:.3}.no{stroke-width:1.6}.fall{stroke-width:3}.thin{stroke-width:1.3}\
.hand.thin{stroke-width:1.8}.anti{stroke-dasharray:6 3}\
.hand{stroke-dasharray:.1 4.5;stroke-linecap:round}.gone{opacity:.42}\
.halo{stroke-width:3px;paint-order:stroke}.g:hover path{opacity:1;stroke-width:2}";

const LIGHT: &str = "\
.past{fill:#e9e9e6}.gvt{stroke:#1c1c1c}.hollow{fill:#ffffff}.halo{stroke:#ffffff}\
.k0{fill:#0072b2}.w0{stroke:#0072b2}.k1{fill:#d55e00}.w1{stroke:#d55e00}.k2{fill:#009e73}.w2{stroke:#009e73}\
.k3{fill:#b4518e}.w3{stroke:#b4518e}.k4{fill:#a87900}.w4{stroke:#a87900}.k5{fill:#3d3d3d}.w5{stroke:#3d3d3d}\
.k6{fill:#3f8fc4}.w6{stroke:#3f8fc4}.k7{fill:#666666}.w7{stroke:#666666}";

const DARK: &str = "\
.past{fill:#2a2d31}.gvt{stroke:#ececec}.hollow{fill:#16181b}.halo{stroke:#16181b}\
.k0{fill:#56b4e9}.w0{stroke:#56b4e9}.k1{fill:#f0883a}.w1{stroke:#f0883a}.k2{fill:#2fc99b}.w2{stroke:#2fc99b}\
.k3{fill:#e58fc2}.w3{stroke:#e58fc2}.k4{fill:#f0c845}.w4{stroke:#f0c845}.k5{fill:#d6d6d6}.w5{stroke:#d6d6d6}\
.k6{fill:#a5d8f6}.w6{stroke:#a5d8f6}.k7{fill:#a2a6ab}.w7{stroke:#a2a6ab}.gone{opacity:.55}";
