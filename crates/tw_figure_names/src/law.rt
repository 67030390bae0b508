//! What the figures are of a state.

ghost use Rattle.tw_figure_names.specs.EntriesLaw.{EntriesLaw, ObservedLaw};
ghost use Rattle.tw_figure_names.specs.Law.{FiguresLaw};
ghost use Rattle.tw_figure_names.specs.MachineLaw.{MachineLaw, ObservationsLaw, ShownLaw};

/// What the figures of a model tell of a state: they are parts of it, or how many values it holds. It does nothing.
pub fn figures_law()
    ensures { FiguresLaw }
{}

/// What the figures of a machine tell of a state: the values of the entries of its `words`, each by that entry's text, and how many
/// values all queues among them have together; and that the three words from an observation's place on are those of its entry. Each
/// entry shows as much whatever a component gives. It does nothing.
pub fn machine_figures_law()
    ensures shown { ShownLaw }
    ensures entries { EntriesLaw }
    ensures machine { MachineLaw }
    ensures observed { ObservedLaw }
    ensures observations { ObservationsLaw }
{}
