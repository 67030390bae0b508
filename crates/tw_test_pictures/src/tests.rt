//! Each scene is drawn twice, and its marks are counted; one picture has 64 lanes.

ghost use Rattle.std.specs.Prelude.{◌==◌, if◌then◌else◌};

use crate::scenes::{Kind, SCENES, Scene, Wanted};
use std::alloc::Global;
use std::process::Abort;
use std::str::from_utf8;
use tw_figure_names::labels_of;
use tw_figures::{Detail, Labels, USUAL_WIDTH, View};
use tw_models::Model;
use tw_network::Network;
use tw_run_picture::{DrawRefused, Subject, draw_run};
use tw_texts::Names;

/// What the pictures are called.
const TITLE: &str = "a<b>&\"c\"";

/// The classes of the marks of outputs, of internal, external and confluent transitions, and of faults.
static CLASSES: [&str; 5] = [
    "<path class=\"o\"",
    "<path class=\"i\"",
    "<path class=\"e\"",
    "<path class=\"c\"",
    "<path class=\"bad\"",
];

/// The name of the first component, and of any other.
#[derive(Drop)]
struct TwoNames {
    first: &'static str,
    other: &'static str,
}

impl Names for TwoNames {
    ghost name_of = { λ names component. if component == 0 then names.first.now else names.other.now };

    fn name(&self, component: usize) -> &str {
        if component == 0 {
            self.first
        } else {
            self.other
        }
    }
}

/// The model of a kind.
fn model(rt: &impl Abort, kind: Kind) -> Model {
    let made = match kind {
        Kind::Gen(period) => Model::generator(period, 5),
        Kind::Tally => return Model::Tally,
        Kind::Relay(delay) => Model::relay(delay),
        Kind::Queue(service) => Model::queue(service),
    };
    made.ok().expect(rt, "a model")
}

/// The network of a scene.
fn network(rt: &impl Abort, alloc: Global, scene: &Scene) -> Network<Model> {
    let mut components = Vec::new(alloc);
    for (name, kind) in scene.names.iter().zip(scene.kinds) {
        let name = String::from_str(alloc, name).expect(rt, "memory");
        components
            .push((name, model(rt, *kind)))
            .ok()
            .expect(rt, "memory");
    }
    let couplings = Vec::from_slice(alloc, scene.couplings).expect(rt, "memory");
    let inputs = Vec::from_slice(alloc, scene.inputs).expect(rt, "memory");
    Network::new(alloc, components, couplings, inputs, 3)
        .ok()
        .expect(rt, "a network")
}

/// What the models of a network are called, and their figures.
fn labels(rt: &impl Abort, alloc: Global, network: &Network<Model>) -> Vec<Labels> {
    let mut labels = Vec::new(alloc);
    for component in 0..network.len() {
        let label = labels_of(alloc, network.model(component)).expect(rt, "memory");
        labels.push(label).ok().expect(rt, "memory");
    }
    labels
}

/// Draws a scene, and answers the picture and what it was refused for.
fn drawn(
    rt: &impl Abort,
    alloc: Global,
    network: &Network<Model>,
    scene: &Scene,
) -> (Vec<u8>, Option<DrawRefused>) {
    let view = View {
        from: scene.from,
        only: scene.only,
        figures: Vec::from_slice(alloc, scene.figures).expect(rt, "memory"),
        width: USUAL_WIDTH,
        detail: scene.detail,
    };
    drawn_as(rt, alloc, network, scene, &view)
}

/// Draws a scene as a view shows it.
fn drawn_as(
    rt: &impl Abort,
    alloc: Global,
    network: &Network<Model>,
    scene: &Scene,
    view: &View<'_>,
) -> (Vec<u8>, Option<DrawRefused>) {
    let labels = labels(rt, alloc, network);
    assert!(rt; labels.len() == network.len());
    let names = TwoNames {
        first: scene.names.first().copied().unwrap_or(""),
        other: scene.names.last().copied().unwrap_or(""),
    };
    let subject = Subject {
        title: TITLE,
        until: scene.until,
        view,
    };
    let mut out = Vec::new(alloc);
    let labels = labels.as_slice();
    let made = draw_run(alloc, network, &names, labels, &subject, &mut out);
    (out, made.err())
}

/// How many marks of a class stand in a picture; its legend has one more where there are any.
fn marks(text: &str, class: usize) -> usize {
    let Some(words) = CLASSES.get(class) else {
        return 0;
    };
    let found = text.matches(*words).count();
    if class < 4 {
        found.saturating_sub(1)
    } else {
        found
    }
}

/// Asserts the marks of a picture, and that it begins, ends and tells what it should.
fn assert_picture(rt: &impl Abort, picture: &[u8], marked: &[usize], told: &str) {
    let text = from_utf8(picture).ok().expect(rt, "a text");
    assert!(rt; text.starts_with("<svg xmlns=") && text.ends_with("</svg>\n"));
    assert!(rt; text.contains("a&lt;b&gt;&amp;&quot;c&quot;") && text.contains(told));
    for (class, count) in marked.iter().enumerate() {
        assert!(rt; marks(text, class) == *count);
    }
}

/// Asserts what comes of a scene.
fn assert_scene(rt: &impl Abort, alloc: Global, scene: &Scene) {
    let network = network(rt, alloc, scene);
    let (first, refused) = drawn(rt, alloc, &network, scene);
    let (second, _) = drawn(rt, alloc, &network, scene);
    assert!(rt; first.as_slice() == second.as_slice());
    match scene.wanted {
        Wanted::Picture(marked) => assert_picture(
            rt,
            first.as_slice(),
            marked.as_slice(),
            scene.told,
        ),
        Wanted::NoSuch => assert!(rt; refused == Some(DrawRefused::NoSuch) && first.is_empty()),
        Wanted::BadTick => assert!(rt; refused == Some(DrawRefused::BadTick) && first.is_empty()),
    }
}

#[test]
fn draws_scenes(rt: HostRuntime) {
    for scene in SCENES.as_slice() {
        assert_scene(&rt, rt.alloc(), scene);
    }
}

/// A network of 64 generators of period 2 without couplings.
fn many(rt: &impl Abort, alloc: Global) -> Network<Model> {
    let mut components = Vec::new(alloc);
    for number in 0..64 {
        let name = format!(in alloc; "g{number}").ok().expect(rt, "memory");
        let made = model(rt, Kind::Gen(2));
        components.push((name, made)).ok().expect(rt, "memory");
    }
    Network::new(alloc, components, Vec::new(alloc), Vec::new(alloc), 3)
        .ok()
        .expect(rt, "a network")
}

/// The picture of 64 lanes until tick 5, as a view shows it.
fn drawn_many(rt: &impl Abort, alloc: Global, view: &View<'_>) -> Vec<u8> {
    let network = many(rt, alloc);
    let labels = labels(rt, alloc, &network);
    assert!(rt; labels.len() == network.len());
    let names = TwoNames {
        first: "g",
        other: "h",
    };
    let subject = Subject {
        title: TITLE,
        until: 5,
        view,
    };
    let mut out = Vec::new(alloc);
    let labels = labels.as_slice();
    let made = draw_run(alloc, &network, &names, labels, &subject, &mut out);
    assert!(rt; made == Ok(None));
    out
}

/// In 64 lanes 64 generators do something at ticks 2 and 4.
#[test]
fn draws_many_lanes(rt: HostRuntime) {
    let view = View {
        from: 0,
        only: None,
        figures: Vec::new(rt.alloc()),
        width: USUAL_WIDTH,
        detail: Detail::Fitting,
    };
    let out = drawn_many(&rt, rt.alloc(), &view);
    assert_picture(&rt, out.as_slice(), &[128, 128, 0, 0, 0], "64 components");
}
