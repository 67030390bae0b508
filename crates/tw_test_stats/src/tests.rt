//! Views of a generator of period 2 and its tally until tick 5, and of two relays that send to each other without a pause, until
//! one meets the limit of microsteps.

ghost use Rattle.std.specs.Prelude.{◌==◌, if◌then◌else◌};

use std::alloc::Global;
use std::process::Abort;
use tw_figure_names::labels_of;
use tw_figures::{Labels, Rows, mean};
use tw_listen::{Nobody, outcome_telling};
use tw_models::Model;
use tw_network::Network;
use tw_record_lines::{Table, write_table};
use tw_stats::{Layout, report_of, write_report};
use tw_texts::Names;

/// The names of two components.
#[derive(Drop)]
pub(crate) struct TwoNames {
    first: &'static str,
    second: &'static str,
}

impl Names for TwoNames {
    ghost name_of = { λ names component. if component == 0 then names.first.now else names.second.now };

    fn name(&self, component: usize) -> &str {
        if component == 0 {
            self.first
        } else {
            self.second
        }
    }
}

/// A network of two components, and how far it runs.
pub(crate) struct Scene {
    pub(crate) names: TwoNames,
    couplings: &'static [(usize, u8, usize, u8)],
    inputs: &'static [(u64, usize, u8, i64)],
    micro_limit: u64,
    until: u64,
    // The component at whose fault the run ends.
    fault: Option<usize>,
}

/// A generator and its tally.
pub(crate) static COUNTED: Scene = Scene {
    names: TwoNames {
        first: "g",
        second: "t",
    },
    couplings: &[(0, 0, 1, 0)],
    inputs: &[],
    micro_limit: 100,
    until: 5,
    fault: None,
};

/// Two relays that send to each other.
static RELAYED: Scene = Scene {
    names: TwoNames {
        first: "a",
        second: "b",
    },
    couplings: &[(0, 0, 1, 0), (1, 0, 0, 0)],
    inputs: &[(3, 0, 0, 1)],
    micro_limit: 3,
    until: 10,
    fault: Some(1),
};

/// The views of a network.
pub(crate) struct Wanted {
    pub(crate) text: &'static str,
    json: &'static str,
    pub(crate) records: &'static str,
    items: &'static str,
    words: &'static str,
}

/// What a generator of period 2 and value 5 sends to a tally, until 5: at ticks 2 and 4.
pub(crate) static GEN_TALLY: Wanted = Wanted {
    text: "\
until 5  components 2  records 6  microsteps 1

component  model  outputs  sent  received  int  ext  con
g          gen          2     2         0    2    0    0
t          tally        0     0         2    0    2    0

component  figure  least  greatest  last   mean   busy
g          count       0         2     2  0.800  0.600
t          count       0         2     2  0.800  0.600
t          sum         0        10    10  4.000  0.600
t          last        0         5     5  3.000  0.600
",
    json: "{\"until\":5,\"records\":6,\"microsteps\":1,\"components\":[\
{\"name\":\"g\",\"model\":\"gen\",\"outputs\":2,\"sent\":2,\"received\":0,\"int\":2,\"ext\":0,\"con\":0,\"figures\":[\
{\"name\":\"count\",\"least\":0,\"greatest\":2,\"last\":2,\"mean\":0.800,\"busy\":0.600,\"mean_of\":[4,5],\"busy_of\":[3,5]}],\"observations\":[]},\
{\"name\":\"t\",\"model\":\"tally\",\"outputs\":0,\"sent\":0,\"received\":2,\"int\":0,\"ext\":2,\"con\":0,\"figures\":[\
{\"name\":\"count\",\"least\":0,\"greatest\":2,\"last\":2,\"mean\":0.800,\"busy\":0.600,\"mean_of\":[4,5],\"busy_of\":[3,5]},\
{\"name\":\"sum\",\"least\":0,\"greatest\":10,\"last\":10,\"mean\":4.000,\"busy\":0.600,\"mean_of\":[20,5],\"busy_of\":[3,5]},\
{\"name\":\"last\",\"least\":0,\"greatest\":5,\"last\":5,\"mean\":3.000,\"busy\":0.600,\"mean_of\":[15,5],\"busy_of\":[3,5]}],\"observations\":[]}]}\n",
    records: "\
tick,microstep,component,kind,items,words
2,0,g,out,0=5,
2,0,g,int,,1
2,0,t,ext,0=5,1 5 5
4,0,g,out,0=5,
4,0,g,int,,2
4,0,t,ext,0=5,2 10 5
",
    items: "\
tick,microstep,component,kind,port,value
2,0,g,out,0,5
2,0,t,ext,0,5
4,0,g,out,0,5
4,0,t,ext,0,5
",
    words: "\
tick,microstep,component,kind,place,number
2,0,g,int,0,1
2,0,t,ext,0,1
2,0,t,ext,1,5
2,0,t,ext,2,5
4,0,g,int,0,2
4,0,t,ext,0,2
4,0,t,ext,1,10
4,0,t,ext,2,5
",
};

/// Two relays without a delay that send one item to each other from tick 3 on, with no microstep past 3: b meets the limit at 3.3,
/// and no tick of the run has an item held at its end.
static RELAYS: Wanted = Wanted {
    text: "\
until 10  components 2  records 8  microsteps 4

component  model  outputs  sent  received  int  ext  con
a          relay        2     2         2    1    2    0
b          relay        1     1         1    1    1    0

component  figure   least  greatest  last   mean   busy
a          dropped      0         0     0  0.000  0.000
a          held         0         1     1  0.000  0.000
b          dropped      0         0     0  0.000  0.000
b          held         0         1     0  0.000  0.000
",
    json: "{\"until\":10,\"records\":8,\"microsteps\":4,\"components\":[\
{\"name\":\"a\",\"model\":\"relay\",\"outputs\":2,\"sent\":2,\"received\":2,\"int\":1,\"ext\":2,\"con\":0,\"figures\":[\
{\"name\":\"dropped\",\"least\":0,\"greatest\":0,\"last\":0,\"mean\":0.000,\"busy\":0.000,\"mean_of\":[0,3],\"busy_of\":[0,3]},\
{\"name\":\"held\",\"least\":0,\"greatest\":1,\"last\":1,\"mean\":0.000,\"busy\":0.000,\"mean_of\":[0,3],\"busy_of\":[0,3]}],\"observations\":[]},\
{\"name\":\"b\",\"model\":\"relay\",\"outputs\":1,\"sent\":1,\"received\":1,\"int\":1,\"ext\":1,\"con\":0,\"figures\":[\
{\"name\":\"dropped\",\"least\":0,\"greatest\":0,\"last\":0,\"mean\":0.000,\"busy\":0.000,\"mean_of\":[0,3],\"busy_of\":[0,3]},\
{\"name\":\"held\",\"least\":0,\"greatest\":1,\"last\":0,\"mean\":0.000,\"busy\":0.000,\"mean_of\":[0,3],\"busy_of\":[0,3]}],\"observations\":[]}],\
\"fault\":{\"component\":\"b\",\"tick\":3,\"microstep\":3,\"limit\":\"microstep\"}}\n",
    records: "\
tick,microstep,component,kind,items,words
3,0,a,ext,0=1,0 1
3,1,a,out,0=1,
3,1,a,int,,0
3,1,b,ext,0=1,0 1
3,2,b,out,0=1,
3,2,a,ext,0=1,0 1
3,2,b,int,,0
3,3,a,out,0=1,
",
    items: "\
tick,microstep,component,kind,port,value
3,0,a,ext,0,1
3,1,a,out,0,1
3,1,b,ext,0,1
3,2,b,out,0,1
3,2,a,ext,0,1
3,3,a,out,0,1
",
    words: "\
tick,microstep,component,kind,place,number
3,0,a,ext,0,0
3,0,a,ext,1,1
3,1,a,int,0,0
3,1,b,ext,0,0
3,1,b,ext,1,1
3,2,a,ext,0,0
3,2,a,ext,1,1
3,2,b,int,0,0
",
};

/// Counts and figures that are told from a tick on.
#[derive(Drop)]
struct Telling {
    from: Option<u64>,
    json: bool,
    wanted: &'static str,
}

/// The generator and its tally: from between its two sendings, from the first of them, from the start, from the end and
/// from behind it.
static TALLY_FROM: [Telling; 6] = [
    Telling {
        from: Some(3),
        json: false,
        wanted: "\
from 3  until 5  components 2  records 3  microsteps 1

component  model  outputs  sent  received  int  ext  con
g          gen          1     1         0    1    0    0
t          tally        0     0         1    0    1    0

component  figure  least  greatest  last   mean   busy
g          count       1         2     2  1.500  1.000
t          count       1         2     2  1.500  1.000
t          sum         5        10    10  7.500  1.000
t          last        5         5     5  5.000  1.000
",
    },
    // A figure comes to tick 2 with 0, which it leaves there.
    Telling {
        from: Some(2),
        json: true,
        wanted: "{\"from\":2,\"until\":5,\"records\":6,\"microsteps\":1,\"components\":[\
{\"name\":\"g\",\"model\":\"gen\",\"outputs\":2,\"sent\":2,\"received\":0,\"int\":2,\"ext\":0,\"con\":0,\"figures\":[\
{\"name\":\"count\",\"least\":0,\"greatest\":2,\"last\":2,\"mean\":1.333,\"busy\":1.000,\"mean_of\":[4,3],\"busy_of\":[3,3]}],\"observations\":[]},\
{\"name\":\"t\",\"model\":\"tally\",\"outputs\":0,\"sent\":0,\"received\":2,\"int\":0,\"ext\":2,\"con\":0,\"figures\":[\
{\"name\":\"count\",\"least\":0,\"greatest\":2,\"last\":2,\"mean\":1.333,\"busy\":1.000,\"mean_of\":[4,3],\"busy_of\":[3,3]},\
{\"name\":\"sum\",\"least\":0,\"greatest\":10,\"last\":10,\"mean\":6.667,\"busy\":1.000,\"mean_of\":[20,3],\"busy_of\":[3,3]},\
{\"name\":\"last\",\"least\":0,\"greatest\":5,\"last\":5,\"mean\":5.000,\"busy\":1.000,\"mean_of\":[15,3],\"busy_of\":[3,3]}],\"observations\":[]}]}\n",
    },
    Telling {
        from: Some(0),
        json: false,
        wanted: "\
from 0  until 5  components 2  records 6  microsteps 1

component  model  outputs  sent  received  int  ext  con
g          gen          2     2         0    2    0    0
t          tally        0     0         2    0    2    0

component  figure  least  greatest  last   mean   busy
g          count       0         2     2  0.800  0.600
t          count       0         2     2  0.800  0.600
t          sum         0        10    10  4.000  0.600
t          last        0         5     5  3.000  0.600
",
    },
    // No tick is from 5 on and before 5.
    Telling {
        from: Some(5),
        json: false,
        wanted: "\
from 5  until 5  components 2  records 0  microsteps 0

component  model  outputs  sent  received  int  ext  con
g          gen          0     0         0    0    0    0
t          tally        0     0         0    0    0    0

component  figure  least  greatest  last    mean   busy
g          count       2         2     2   2.000  1.000
t          count       2         2     2   2.000  1.000
t          sum        10        10    10  10.000  1.000
t          last        5         5     5   5.000  1.000
",
    },
    Telling {
        from: Some(9),
        json: false,
        wanted: "\
from 9  until 5  components 2  records 0  microsteps 0

component  model  outputs  sent  received  int  ext  con
g          gen          0     0         0    0    0    0
t          tally        0     0         0    0    0    0

component  figure  least  greatest  last    mean   busy
g          count       2         2     2   2.000  1.000
t          count       2         2     2   2.000  1.000
t          sum        10        10    10  10.000  1.000
t          last        5         5     5   5.000  1.000
",
    },
    Telling {
        from: Some(9),
        json: true,
        wanted: "{\"from\":9,\"until\":5,\"records\":0,\"microsteps\":0,\"components\":[\
{\"name\":\"g\",\"model\":\"gen\",\"outputs\":0,\"sent\":0,\"received\":0,\"int\":0,\"ext\":0,\"con\":0,\"figures\":[\
{\"name\":\"count\",\"least\":2,\"greatest\":2,\"last\":2,\"mean\":2.000,\"busy\":1.000,\"mean_of\":[0,0],\"busy_of\":[0,0]}],\"observations\":[]},\
{\"name\":\"t\",\"model\":\"tally\",\"outputs\":0,\"sent\":0,\"received\":0,\"int\":0,\"ext\":0,\"con\":0,\"figures\":[\
{\"name\":\"count\",\"least\":2,\"greatest\":2,\"last\":2,\"mean\":2.000,\"busy\":1.000,\"mean_of\":[0,0],\"busy_of\":[0,0]},\
{\"name\":\"sum\",\"least\":10,\"greatest\":10,\"last\":10,\"mean\":10.000,\"busy\":1.000,\"mean_of\":[0,0],\"busy_of\":[0,0]},\
{\"name\":\"last\",\"least\":5,\"greatest\":5,\"last\":5,\"mean\":5.000,\"busy\":1.000,\"mean_of\":[0,0],\"busy_of\":[0,0]}],\"observations\":[]}]}\n",
    },
];

/// The relays, whose run ends at tick 3: from that tick, at which all records are but no time passes, and from a later
/// one, at which a holds an item and b none.
static RELAYS_FROM: [Telling; 3] = [
    Telling {
        from: Some(3),
        json: false,
        wanted: "\
from 3  until 10  components 2  records 8  microsteps 4

component  model  outputs  sent  received  int  ext  con
a          relay        2     2         2    1    2    0
b          relay        1     1         1    1    1    0

component  figure   least  greatest  last   mean   busy
a          dropped      0         0     0  0.000  0.000
a          held         0         1     1  1.000  1.000
b          dropped      0         0     0  0.000  0.000
b          held         0         1     0  0.000  0.000
",
    },
    Telling {
        from: Some(4),
        json: false,
        wanted: "\
from 4  until 10  components 2  records 0  microsteps 0

component  model  outputs  sent  received  int  ext  con
a          relay        0     0         0    0    0    0
b          relay        0     0         0    0    0    0

component  figure   least  greatest  last   mean   busy
a          dropped      0         0     0  0.000  0.000
a          held         1         1     1  1.000  1.000
b          dropped      0         0     0  0.000  0.000
b          held         0         0     0  0.000  0.000
",
    },
    Telling {
        from: Some(4),
        json: true,
        wanted: "{\"from\":4,\"until\":10,\"records\":0,\"microsteps\":0,\"components\":[\
{\"name\":\"a\",\"model\":\"relay\",\"outputs\":0,\"sent\":0,\"received\":0,\"int\":0,\"ext\":0,\"con\":0,\"figures\":[\
{\"name\":\"dropped\",\"least\":0,\"greatest\":0,\"last\":0,\"mean\":0.000,\"busy\":0.000,\"mean_of\":[0,0],\"busy_of\":[0,0]},\
{\"name\":\"held\",\"least\":1,\"greatest\":1,\"last\":1,\"mean\":1.000,\"busy\":1.000,\"mean_of\":[0,0],\"busy_of\":[0,0]}],\"observations\":[]},\
{\"name\":\"b\",\"model\":\"relay\",\"outputs\":0,\"sent\":0,\"received\":0,\"int\":0,\"ext\":0,\"con\":0,\"figures\":[\
{\"name\":\"dropped\",\"least\":0,\"greatest\":0,\"last\":0,\"mean\":0.000,\"busy\":0.000,\"mean_of\":[0,0],\"busy_of\":[0,0]},\
{\"name\":\"held\",\"least\":0,\"greatest\":0,\"last\":0,\"mean\":0.000,\"busy\":0.000,\"mean_of\":[0,0],\"busy_of\":[0,0]}],\"observations\":[]}],\
\"fault\":{\"component\":\"b\",\"tick\":3,\"microstep\":3,\"limit\":\"microstep\"}}\n",
    },
];

/// A table that has records from a tick on.
#[derive(Drop)]
struct Listing {
    rows: Rows,
    from: u64,
    wanted: &'static str,
}

/// The generator and its tally: from between its two sendings, from the second of them, and from behind it.
static LISTED_FROM: [Listing; 3] = [
    Listing {
        rows: Rows::Records,
        from: 3,
        wanted: "\
tick,microstep,component,kind,items,words
4,0,g,out,0=5,
4,0,g,int,,2
4,0,t,ext,0=5,2 10 5
",
    },
    Listing {
        rows: Rows::Items,
        from: 4,
        wanted: "\
tick,microstep,component,kind,port,value
4,0,g,out,0,5
4,0,t,ext,0,5
",
    },
    Listing {
        rows: Rows::Words,
        from: 5,
        wanted: "\
tick,microstep,component,kind,place,number
",
    },
];

/// The network of a scene, with these models.
pub(crate) fn network(
    rt: &impl Abort,
    alloc: Global,
    scene: &Scene,
    first: Model,
    second: Model,
) -> Network<Model> {
    let mut components = Vec::new(alloc);
    let name = String::from_str(alloc, scene.names.first).expect(rt, "memory");
    components.push((name, first)).ok().expect(rt, "memory");
    let name = String::from_str(alloc, scene.names.second).expect(rt, "memory");
    components.push((name, second)).ok().expect(rt, "memory");
    let couplings = Vec::from_slice(alloc, scene.couplings).expect(rt, "memory");
    let inputs = Vec::from_slice(alloc, scene.inputs).expect(rt, "memory");
    Network::new(alloc, components, couplings, inputs, scene.micro_limit)
        .ok()
        .expect(rt, "a network")
}

/// What the models of a network are called, and their figures.
pub(crate) fn labels(rt: &impl Abort, alloc: Global, network: &Network<Model>) -> Vec<Labels> {
    let mut labels = Vec::new(alloc);
    for component in 0..network.len() {
        let label = labels_of(alloc, network.model(component)).expect(rt, "memory");
        labels.push(label).ok().expect(rt, "memory");
    }
    labels
}

/// Asserts what is written of counts and figures, and the component at whose fault the run ends.
fn assert_stats(
    rt: &impl Abort,
    alloc: Global,
    network: &Network<Model>,
    scene: &Scene,
    telling: &Telling,
) {
    let labels = labels(rt, alloc, network);
    assert!(rt; labels.len() == network.len());
    let labels = labels.as_slice();
    let from = telling.from;
    let report = report_of(alloc, network, labels, from, scene.until, &mut Nobody);
    let report = report.ok().expect(rt, "a report");
    assert!(rt; report.fault.map(|met| met.component) == scene.fault);
    let names = &scene.names;
    let mut out = Vec::new(alloc);
    let layout = Layout {
        json: telling.json,
        shown: &[true, true],
    };
    let written = write_report(alloc, &report, names, labels, &layout, &mut out);
    assert!(rt; written.is_ok());
    assert!(rt; out.as_slice() == telling.wanted.as_bytes());
}

/// Asserts what is written of counts and figures from the start of the run, as text and as JSON.
fn assert_both(
    rt: &impl Abort,
    alloc: Global,
    network: &Network<Model>,
    scene: &Scene,
    views: &Wanted,
) {
    let text = Telling {
        from: None,
        json: false,
        wanted: views.text,
    };
    assert_stats(rt, alloc, network, scene, &text);
    let json = Telling {
        from: None,
        json: true,
        wanted: views.json,
    };
    assert_stats(rt, alloc, network, scene, &json);
}

/// Asserts what is written of a table, and the component at whose fault the run ends.
fn assert_table(
    rt: &impl Abort,
    alloc: Global,
    network: &Network<Model>,
    scene: &Scene,
    listing: &Listing,
) {
    let met = outcome_telling(alloc, network, scene.until, &mut Nobody);
    let met = met.ok().expect(rt, "an outcome");
    assert!(rt; met.map(|met| met.component) == scene.fault);
    let mut out = Vec::new(alloc);
    let lines = Table {
        rows: listing.rows,
        fields: &[],
        names: &scene.names,
        shown: &[true, true],
        from: listing.from,
    };
    let written = write_table(alloc, network, scene.until, &lines, &mut Nobody, &mut out);
    assert!(rt; written.is_ok());
    assert!(rt; out.as_slice() == listing.wanted.as_bytes());
}

/// Asserts a table of a whole run.
fn assert_whole(
    rt: &impl Abort,
    alloc: Global,
    network: &Network<Model>,
    scene: &Scene,
    rows: Rows,
    wanted: &'static str,
) {
    let listing = Listing {
        rows,
        from: 0,
        wanted,
    };
    assert_table(rt, alloc, network, scene, &listing);
}

/// Asserts the three tables of a network.
fn assert_tables(
    rt: &impl Abort,
    alloc: Global,
    network: &Network<Model>,
    scene: &Scene,
    wanted: &Wanted,
) {
    assert_whole(rt, alloc, network, scene, Rows::Records, wanted.records);
    assert_whole(rt, alloc, network, scene, Rows::Items, wanted.items);
    assert_whole(rt, alloc, network, scene, Rows::Words, wanted.words);
}

#[test]
fn shows_a_generator_and_its_tally(rt: HostRuntime) {
    let first = Model::generator(2, 5).ok().expect(&rt, "a generator");
    let network = network(&rt, rt.alloc(), &COUNTED, first, Model::Tally);
    assert_both(&rt, rt.alloc(), &network, &COUNTED, &GEN_TALLY);
    assert_tables(&rt, rt.alloc(), &network, &COUNTED, &GEN_TALLY);
}

#[test]
fn shows_relays_up_to_a_fault(rt: HostRuntime) {
    let first = Model::relay(0).ok().expect(&rt, "a relay");
    let second = Model::relay(0).ok().expect(&rt, "a relay");
    let network = network(&rt, rt.alloc(), &RELAYED, first, second);
    assert_both(&rt, rt.alloc(), &network, &RELAYED, &RELAYS);
    assert_tables(&rt, rt.alloc(), &network, &RELAYED, &RELAYS);
}

#[test]
fn tells_a_tally_from_a_tick_on(rt: HostRuntime) {
    let first = Model::generator(2, 5).ok().expect(&rt, "a generator");
    let network = network(&rt, rt.alloc(), &COUNTED, first, Model::Tally);
    for telling in &TALLY_FROM {
        assert_stats(&rt, rt.alloc(), &network, &COUNTED, telling);
    }
}

#[test]
fn lists_a_tally_from_a_tick_on(rt: HostRuntime) {
    let first = Model::generator(2, 5).ok().expect(&rt, "a generator");
    let network = network(&rt, rt.alloc(), &COUNTED, first, Model::Tally);
    for listing in &LISTED_FROM {
        assert_table(&rt, rt.alloc(), &network, &COUNTED, listing);
    }
}

#[test]
fn tells_relays_from_a_tick_on(rt: HostRuntime) {
    let first = Model::relay(0).ok().expect(&rt, "a relay");
    let second = Model::relay(0).ok().expect(&rt, "a relay");
    let network = network(&rt, rt.alloc(), &RELAYED, first, second);
    for telling in &RELAYS_FROM {
        assert_stats(&rt, rt.alloc(), &network, &RELAYED, telling);
    }
}

/// A half is rounded up, towards greater.
#[test]
fn rounds_means(rt: HostRuntime) {
    assert!(rt; mean(-1, 0, 2) == Some(-500));
    assert!(rt; mean(1, 0, 2000) == Some(1));
    assert!(rt; mean(-1, 0, 2000) == Some(0));
    assert!(rt; mean(0, 7, 0) == Some(7000));
}
