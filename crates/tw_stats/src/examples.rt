//! Pieces of reports by hand, which the check computes.

ghost use Rattle.tw_stats.specs.Examples.{CountsTable, DeskJson, Escapes, GeneratorJson, NoObservations, ObservationsTable};

/// The table of the counts of a generator and its tally, the JSON of the generator, the observations of a machine as a table and as JSON,
/// and a string with escapes. It does nothing.
pub fn reports()
    ensures counts { CountsTable }
    ensures json { GeneratorJson }
    ensures observed { DeskJson }
    ensures observations { ObservationsTable }
    ensures no_observations { NoObservations }
    ensures escapes { Escapes }
{}
