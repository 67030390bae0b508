//! Components that are shown, changes of figures, and an observation, worked out by hand.

use crate::tests::{COUNTED, labels, network};
use std::alloc::Global;
use std::process::Abort;
use tw_figures::{Observation, shown_of};
use tw_listen::Nobody;
use tw_models::Model;
use tw_network::Network;
use tw_record_lines::{FigureTable, write_figures};
use tw_stats::{Layout, report_of, write_report};

/// A list of names, and whether `g` and `t` are then shown; none where a name is no component's.
struct Asked {
    only: &'static str,
    shown: Option<(bool, bool)>,
}

static LISTS: [Asked; 8] = [
    Asked {
        only: "g",
        shown: Some((true, false)),
    },
    Asked {
        only: "t",
        shown: Some((false, true)),
    },
    Asked {
        only: "t,g",
        shown: Some((true, true)),
    },
    Asked {
        only: "g,g",
        shown: Some((true, false)),
    },
    Asked {
        only: "",
        shown: None,
    },
    Asked {
        only: "g,",
        shown: None,
    },
    Asked {
        only: "gt",
        shown: None,
    },
    Asked {
        only: "g, t",
        shown: None,
    },
];

/// The changes of the figures of these components from a tick on, until tick 5.
pub(crate) struct Changing {
    pub(crate) from: u64,
    pub(crate) shown: (bool, bool),
    pub(crate) wanted: &'static str,
}

pub(crate) static CHANGES: [Changing; 3] = [
    Changing {
        from: 0,
        shown: (true, true),
        wanted: "tick,microstep,component,figure,value
0,0,g,count,0
0,0,t,count,0
0,0,t,sum,0
0,0,t,last,0
2,0,g,count,1
2,0,t,count,1
2,0,t,sum,5
2,0,t,last,5
4,0,g,count,2
4,0,t,count,2
4,0,t,sum,10
",
    },
    Changing {
        from: 3,
        shown: (false, true),
        wanted: "tick,microstep,component,figure,value
3,0,t,count,1
3,0,t,sum,5
3,0,t,last,5
4,0,t,count,2
4,0,t,sum,10
",
    },
    Changing {
        from: 9,
        shown: (true, false),
        wanted: "tick,microstep,component,figure,value
9,0,g,count,2
",
    },
];

/// The tally from tick 3 on, with its words taken for an observation: one value, the sum 5, and squares whose sum is 0. No values
/// have such sums.
const OBSERVED: &str = "from 3  until 5  components 2  records 3  microsteps 1

component  model  outputs  sent  received  int  ext  con
t          tally        0     0         1    0    1    0

component  figure  least  greatest  last   mean   busy
t          count       1         2     2  1.500  1.000
t          sum         5        10    10  7.500  1.000
t          last        5         5     5  5.000  1.000

component  observation  count  sum   mean  sd
t          seen             1    5  5.000   -
";

/// A generator that sends 5 each second tick, and its tally.
pub(crate) fn counted(rt: &impl Abort, alloc: Global) -> Network<Model> {
    let first = Model::generator(2, 5).ok().expect(rt, "a generator");
    network(rt, alloc, &COUNTED, first, Model::Tally)
}

/// Whether two components are shown, in a list.
fn pair(shown: &[bool]) -> Option<(bool, bool)> {
    match shown {
        [first, second] => Some((*first, *second)),
        _ => None,
    }
}

#[test]
fn shows_the_components_of_a_list(rt: HostRuntime) {
    let network = counted(&rt, rt.alloc());
    for asked in &LISTS {
        let shown = shown_of(rt.alloc(), &network, Some(asked.only)).ok();
        let shown = shown.expect(&rt, "memory");
        assert!(rt; shown.and_then(|it| pair(it.as_slice())) == asked.shown);
    }
}

/// Asserts the table of the changes.
fn assert_changes(rt: &impl Abort, alloc: Global, network: &Network<Model>, changing: &Changing) {
    let labels = labels(rt, alloc, network);
    assert!(rt; network.len() == 2);
    let (first, second) = changing.shown;
    let table = FigureTable {
        names: &COUNTED.names,
        labels: labels.as_slice(),
        shown: &[first, second],
        from: changing.from,
    };
    let mut out = Vec::new(alloc);
    let written = write_figures(alloc, network, 5, &table, &mut Nobody, &mut out);
    assert!(rt; written.is_ok());
    assert!(rt; out.as_slice() == changing.wanted.as_bytes());
}

#[test]
fn lists_changes_of_figures(rt: HostRuntime) {
    let network = counted(&rt, rt.alloc());
    for changing in &CHANGES {
        assert_changes(&rt, rt.alloc(), &network, changing);
    }
}

#[test]
fn tells_an_observation(rt: HostRuntime) {
    let alloc = rt.alloc();
    let network = counted(&rt, alloc);
    let mut labels = labels(&rt, alloc, &network);
    assert!(rt; labels.len() == 2 && network.len() == 2);
    let name = String::from_str(alloc, "seen").expect(&rt, "memory");
    let added = labels[1].observations.push(Observation { name, place: 0 });
    assert!(rt; added.is_ok());
    let labels = labels.as_slice();
    let report = report_of(alloc, &network, labels, Some(3), 5, &mut Nobody);
    let report = report.ok().expect(&rt, "a report");
    let layout = Layout {
        json: false,
        shown: &[false, true],
    };
    let mut out = Vec::new(alloc);
    let written = write_report(alloc, &report, &COUNTED.names, labels, &layout, &mut out);
    assert!(rt; written.is_ok());
    assert!(rt; out.as_slice() == OBSERVED.as_bytes());
}
