//! The job `draw`: a picture of a sequential run, or of a run of Time Warp.

ghost use Rattle.std.specs.Prelude.{◌≡◌, ◌⊎◌, ℕ, List};
ghost use Rattle.tw_engine.specs.Drawings.{IsSeedDrawn, IsScriptDrawn, IsScriptDrawnBy, IsViewDrawn, IsViewDrawnOf, IsWarpDrawn};
ghost use Rattle.tw_engine.specs.Jobs.{DriverReads, IsDrawn, MeansSome, PictureReads};
ghost use Rattle.tw_file_network.specs.TreeMeaning.{IsMeaning};

use crate::failed::Failed;
use crate::faults::fault_line;
use crate::job_play::{Start, commands_in, player_of};
use crate::names::NetworkNames;
use crate::reading::{Run, file_in, network_in, read_all};
use serde_json::Value;
use std::alloc::Global;
use std::io::{Read, Write};
use tw_any_model::AnyModel;
use tw_cli::{Driver, Picture};
use tw_figure_names::labels_in;
use tw_figures::View;
use tw_network::Network;
use tw_run_picture::{Subject, draw_run};
use tw_vtime::Refusal;
use tw_warp_picture::{draw_script, draw_seed};

/// The title of a file's pictures: its name without the folders before it and the ending behind it.
pub(crate) fn title_of(path: &str) -> &str {
    let name = match path.rsplit_once('/') {
        Some((_, name)) => name,
        None => path,
    };
    match name.rsplit_once('.') {
        Some((stem, _)) if !stem.is_empty() => stem,
        _ => name,
    }
}

/// A picture to be drawn.
#[derive(Clone, Copy, Debug)]
pub struct Drawing<'a> {
    /// Its title.
    pub title: &'a str,
    /// The end tick of what it is of.
    pub until: u64,
    /// What it is of.
    pub picture: &'a Picture<'a>,
}

/// Does the job `draw` of [`alone`](crate::alone) on a file's bytes, and answers the line of the run's fault, if the picture is of a run
/// that ends in one. It takes no handle, and so it returns.
///
/// It fails as the table of [`alone`](crate::alone) says.
pub fn draw<S: Read, W: Write>(
    alloc: Global,
    bytes: &[u8],
    script: &mut S,
    drawing: &Drawing<'_>,
    out: &mut W,
) -> Result<Option<String>, Failed>
    ensures done { IsDrawn drawing.now.picture.now drawing.now.until result bytes.now
        (S.remaining script.old) (W.contents out.old) (W.contents out.new) }
    ensures reads { (script.new ≡ script.old)
        ⊎ PictureReads drawing.now.picture.now bytes.now }
{
    let title = drawing.title;
    let until = drawing.until;
    match drawing.picture {
        Picture::Run(view) => draw_file(alloc, bytes, title, until, view, out),
        Picture::Warp { cancel, driver } => {
            let warp = Warp {
                title,
                start: Start {
                    until,
                    cancel: *cancel,
                },
            };
            draw_warp(alloc, bytes, script, warp, driver, out)
        }
    }
}

/// Draws the run of the network that a file's bytes mean.
fn draw_file<W: Write>(
    alloc: Global,
    bytes: &[u8],
    title: &str,
    until: u64,
    view: &View<'_>,
    out: &mut W,
) -> Result<Option<String>, Failed>
    ensures { IsViewDrawn bytes.now until result (W.contents out.old) (W.contents out.new) }
{
    let file = file_in(alloc, bytes)?;
    let run = Run {
        network: &file.network,
        until,
    };
    draw_network(alloc, &file.value, &run, title, view, out)
}

/// Draws a network's run, with the names that its file has for its figures.
fn draw_network<W: Write>(
    alloc: Global,
    file: &Value,
    run: &Run<'_>,
    title: &str,
    view: &View<'_>,
    out: &mut W,
) -> Result<Option<String>, Failed>
    ensures { IsViewDrawnOf run.now.network.now run.now.until result
        (W.contents out.old) (W.contents out.new) }
{
    let labels = labels_in(alloc, file, run.network)?;
    let names = NetworkNames {
        network: run.network,
    };
    let subject = Subject {
        title,
        until: run.until,
        view,
    };
    match draw_run(alloc, run.network, &names, labels.as_slice(), &subject, out) {
        Ok(fault) => Ok(fault_line(alloc, run.network, fault)?),
        Err(why) => Err(Failed::from(Refusal::from(why))),
    }
}

// A picture of a run of Time Warp: its title, and the executive that is driven.
#[derive(Clone, Copy)]
struct Warp<'a> {
    title: &'a str,
    start: Start,
}

/// Draws the run of an executive of the network that a file's bytes mean, with what drives it.
fn draw_warp<S: Read, W: Write>(
    alloc: Global,
    bytes: &[u8],
    script: &mut S,
    warp: Warp<'_>,
    driver: &Driver<'_>,
    out: &mut W,
) -> Result<Option<String>, Failed>
    ensures done { IsWarpDrawn driver.now bytes.now warp.entry.start.until result
        (S.remaining script.old) (W.contents out.old) (W.contents out.new) }
    ensures reads { (script.new ≡ script.old) ⊎ DriverReads driver.now bytes.now }
{
    match driver {
        Driver::Script(_) => draw_by_script(alloc, bytes, script, warp, out),
        Driver::Seed { seed, steps } => draw_by_seed(alloc, bytes, warp, *seed, *steps, out),
    }
}

/// Draws the run of an executive that a script drives, which is read only where the bytes mean a network.
fn draw_by_script<S: Read, W: Write>(
    alloc: Global,
    bytes: &[u8],
    script: &mut S,
    warp: Warp<'_>,
    out: &mut W,
) -> Result<Option<String>, Failed>
    ensures done { IsScriptDrawnBy bytes.now warp.entry.start.until result
        (S.remaining script.old) (W.contents out.old) (W.contents out.new) }
    ensures reads { (script.new ≡ script.old) ⊎ MeansSome bytes.now }
{
    let network = network_in(alloc, bytes)?;
    let lines = read_all(alloc, script)?;
    draw_lines(alloc, network, lines.as_slice(), warp, out)
}

/// Draws the run of a network's executive that the lines of a script drive.
fn draw_lines<W: Write>(
    alloc: Global,
    network: Network<AnyModel>,
    script: &[u8],
    warp: Warp<'_>,
    out: &mut W,
) -> Result<Option<String>, Failed>
    ensures { (bytes : List ℕ) → IsMeaning bytes network
        → IsScriptDrawn bytes script.now warp.entry.start.until result
        (W.contents out.old) (W.contents out.new) }
{
    let commands = commands_in(alloc, script, &network)?;
    let mut player = player_of(alloc, network, warp.start)?;
    draw_script(alloc, &mut player, commands.as_slice(), warp.title, out)?;
    Ok(None)
}

/// Draws the run of an executive by the actions that a seed gives.
fn draw_by_seed<W: Write>(
    alloc: Global,
    bytes: &[u8],
    warp: Warp<'_>,
    seed: u64,
    steps: u64,
    out: &mut W,
) -> Result<Option<String>, Failed>
    ensures { IsSeedDrawn bytes.now warp.entry.start.until result
        (W.contents out.old) (W.contents out.new) }
{
    let network = network_in(alloc, bytes)?;
    let mut player = player_of(alloc, network, warp.start)?;
    draw_seed(alloc, &mut player, seed, steps, warp.title, out)?;
    Ok(None)
}
