//! Taking back.

ghost use Rattle.tw_laws.specs.Inverse.{InverseLaw, BackRestores};
ghost use Rattle.tw_laws.specs.Rewinding.{RewindingLaw, RewindAnswersLaw, BackCuts, CutsPart};

/// Steps on any components of a sound executive, and a rewind to the marks before them, restore everything but
/// what is outgoing and owed: each outgoing list is the old one, then each message sent since, once positive and
/// once as an anti-message.
pub fn inverse_law<S>()
    ensures { InverseLaw S }
{}

/// A rewind cuts each process at its mark, whatever came since, and takes out of transit what the cut steps sent.
/// It is refused where its marks are not one for each component, or where a step since its mark stands before
/// global virtual time; and nowhere else.
pub fn rewinding_law<S>()
    ensures cuts { RewindingLaw S }
    ensures answers { RewindAnswersLaw S }
{}

/// After steps on any components of a sound executive, Back to one component's mark takes back that component's
/// steps and no others: its process is restored, with one anti-message for each message that they sent. And Back,
/// whatever came before it, cuts that process at its stamp and takes out of transit what the cut steps sent. What a cut
/// takes back stands at or after its stamp, and what it keeps before it.
pub fn back_law<S>()
    ensures restores { BackRestores S }
    ensures takes_back { BackCuts S }
    ensures parts { CutsPart S }
{}
