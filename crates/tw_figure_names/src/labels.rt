//! The names and the figures of the built-in models.

ghost use Rattle.std.specs.Prelude.{◌≡◌, ◌++◌, ◌∷◌, [], IfOk, OnOk, map};
ghost use Rattle.tw_figures.specs.Labelled.{figure, label};
ghost use Rattle.tw_figure_names.specs.Labels.{built_in, figures_in};

use std::alloc::{AllocError, Global};
use tw_figures::{Figure, Labels, Measure};
use tw_models::Model;

/// What a built-in model is called, and its figures: `count` of gen; `count`, `sum` and `last` of tally; `dropped` and `held`, how
/// many values it holds, of relay; `dropped` and `jobs`, how many there are, of queue; none of hop.
///
/// Refused for want of memory (4).
pub fn labels_of(alloc: Global, model: &Model) -> Result<Labels, AllocError>
    ensures { IfOk result (λ labels. label labels ≡ built_in model.now) }
{
    let figures = figures_of(alloc, model)?;
    let name = String::from_str(alloc, model.kind_name())?;
    Ok(Labels {
        model: name,
        figures,
        observations: Vec::new(alloc),
    })
}

/// The figures of a model.
fn figures_of(alloc: Global, model: &Model) -> Result<Vec<Figure>, AllocError>
    ensures { IfOk result (λ figures. map figure figures.items ≡ figures_in model.now) }
{
    let mut figures = Vec::new(alloc);
    match model {
        Model::Gen(_) => add(alloc, &mut figures, "count", Measure::Word(0))?,
        Model::Tally => {
            add(alloc, &mut figures, "count", Measure::Word(0))?;
            add(alloc, &mut figures, "sum", Measure::Word(1))?;
            add(alloc, &mut figures, "last", Measure::Word(2))?;
        }
        Model::Relay(_) => {
            add(alloc, &mut figures, "dropped", Measure::Word(0))?;
            add(alloc, &mut figures, "held", Measure::Beyond(1))?;
        }
        Model::Queue(_) => {
            add(alloc, &mut figures, "dropped", Measure::Word(0))?;
            add(alloc, &mut figures, "jobs", Measure::Beyond(1))?;
        }
        Model::Hop(_) => {}
    }
    Ok(figures)
}

/// A figure more.
fn add(
    alloc: Global,
    figures: &mut Vec<Figure>,
    name: &str,
    measure: Measure,
) -> Result<(), AllocError>
    ensures { OnOk result (map figure figures.new.items
        ≡ map figure figures.old.items ++ (name.now, measure) ∷ []) }
{
    let name = String::from_str(alloc, name)?;
    figures.push(Figure { name, measure })?;
    Ok(())
}
