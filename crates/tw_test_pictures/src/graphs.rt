//! Graphs of files, in the language DOT: each text is written by hand.

use serde_json::Value;
use std::alloc::Global;
use std::process::Abort;
use std::str::from_utf8;
use tw_dot::write_dot;
use tw_texts::NotWritten;

/// A file, and what its graph has behind the head.
struct Graph {
    file: &'static str,
    wanted: &'static str,
}

/// What all graphs begin with.
const HEAD: &str = r##"digraph network {
  graph [rankdir=LR, bgcolor=transparent, nodesep=0.25, ranksep=0.5, fontname="Helvetica,Arial,sans-serif", fontsize=11, style=filled, fillcolor="#f4f4f4", color="#808080", penwidth=0.7];
  node [shape=plain, fontname="Helvetica,Arial,sans-serif", fontsize=11, color="#606060"];
  edge [fontname="Helvetica,Arial,sans-serif", fontsize=9, fontcolor="#767676", color="#767676", penwidth=0.8, arrowsize=0.6];
"##;

/// Graphs of files, and of values that are none.
static GRAPHS: [Graph; 5] = [
    // A generator and its tally, examples/gen-tally.json.
    Graph {
        file: r#"{
  "format": "tw-1",
  "micro_limit": 100,
  "components": [
    {"name": "g", "model": "gen", "period": 2, "value": 5},
    {"name": "t", "model": "tally"}
  ],
  "couplings": [["g", 0, "t", 0]],
  "inputs": []
}"#,
        wanted: r##"  c0 [label=<<TABLE BORDER="1" CELLBORDER="0" CELLSPACING="0" CELLPADDING="0" BGCOLOR="white"><TR><TD CELLPADDING="5"><B>g</B><BR/>gen<BR/><FONT POINT-SIZE="9">period 2, value 5</FONT></TD><TD><TABLE BORDER="0" CELLBORDER="0" CELLSPACING="1" CELLPADDING="2"><TR><TD PORT="o0" BGCOLOR="#e4e4e4"><FONT POINT-SIZE="8">0</FONT></TD></TR></TABLE></TD></TR></TABLE>>];
  c1 [label=<<TABLE BORDER="1" CELLBORDER="0" CELLSPACING="0" CELLPADDING="0" BGCOLOR="white"><TR><TD><TABLE BORDER="0" CELLBORDER="0" CELLSPACING="1" CELLPADDING="2"><TR><TD PORT="i0" BGCOLOR="#e4e4e4"><FONT POINT-SIZE="8">0</FONT></TD></TR></TABLE></TD><TD CELLPADDING="5"><B>t</B><BR/>tally</TD></TR></TABLE>>];
  c0:o0:e -> c1:i0:w;
}
"##,
    },
    // A relay in a cell in a plant: port 2 of the plant leads to port 1 of the cell and on to port 4 of the relay, which has
    // two inputs at port 0 and one at port 4; its port 0 leads out to the tally, which has one input.
    Graph {
        file: r#"{"format": "tw-2", "micro_limit": 9, "components": [
 {"name": "plant", "components": [
  {"name": "cell", "components": [{"name": "r", "model": "relay", "delay": 7}],
   "couplings": [["", 1, "r", 4], ["r", 0, "", 0]]}],
  "couplings": [["", 2, "cell", 1], ["cell", 0, "", 3]]},
 {"name": "t", "model": "tally"},
 {"name": "h", "model": "hop", "seed": 18446744073709551615, "ports": 2, "spread": 10}],
 "couplings": [["h", 15, "plant", 2], ["plant", 3, "t", 0]],
 "inputs": [
  {"tick": 1, "to": "t", "port": 0, "value": -4}, {"tick": 2, "to": "plant.cell.r", "port": 4, "value": 1},
  {"tick": 2, "to": "plant.cell.r", "port": 0, "value": 1}, {"tick": 3, "to": "plant.cell.r", "port": 0, "value": 2}]}"#,
        wanted: r##"  subgraph cluster_0 {
    label=<<B>plant</B>>; margin=10;
    { rank=source; node [shape=box, style=filled, fillcolor="#e4e4e4", fontsize=8, width=0.16, height=0.16, margin=0.02]; p0i2 [label="2"]; }
    { rank=sink; node [shape=box, style=filled, fillcolor="#e4e4e4", fontsize=8, width=0.16, height=0.16, margin=0.02]; p0o3 [label="3"]; }
    subgraph cluster_1 {
      label=<<B>cell</B>>; margin=10;
      { rank=source; node [shape=box, style=filled, fillcolor="#e4e4e4", fontsize=8, width=0.16, height=0.16, margin=0.02]; p1i1 [label="1"]; }
      { rank=sink; node [shape=box, style=filled, fillcolor="#e4e4e4", fontsize=8, width=0.16, height=0.16, margin=0.02]; p1o0 [label="0"]; }
      c0 [label=<<TABLE BORDER="1" CELLBORDER="0" CELLSPACING="0" CELLPADDING="0" BGCOLOR="white"><TR><TD><TABLE BORDER="0" CELLBORDER="0" CELLSPACING="1" CELLPADDING="2"><TR><TD PORT="i0" BGCOLOR="#e4e4e4"><FONT POINT-SIZE="8">0</FONT></TD></TR><TR><TD PORT="i4" BGCOLOR="#e4e4e4"><FONT POINT-SIZE="8">4</FONT></TD></TR></TABLE></TD><TD CELLPADDING="5"><B>r</B><BR/>relay<BR/><FONT POINT-SIZE="9">delay 7</FONT></TD><TD><TABLE BORDER="0" CELLBORDER="0" CELLSPACING="1" CELLPADDING="2"><TR><TD PORT="o0" BGCOLOR="#e4e4e4"><FONT POINT-SIZE="8">0</FONT></TD></TR></TABLE></TD></TR></TABLE>>];
    }
  }
  c1 [label=<<TABLE BORDER="1" CELLBORDER="0" CELLSPACING="0" CELLPADDING="0" BGCOLOR="white"><TR><TD><TABLE BORDER="0" CELLBORDER="0" CELLSPACING="1" CELLPADDING="2"><TR><TD PORT="i0" BGCOLOR="#e4e4e4"><FONT POINT-SIZE="8">0</FONT></TD></TR></TABLE></TD><TD CELLPADDING="5"><B>t</B><BR/>tally</TD></TR></TABLE>>];
  c2 [label=<<TABLE BORDER="1" CELLBORDER="0" CELLSPACING="0" CELLPADDING="0" BGCOLOR="white"><TR><TD CELLPADDING="5"><B>h</B><BR/>hop<BR/><FONT POINT-SIZE="9">seed 18446744073709551615, ports 2, spread 10</FONT></TD><TD><TABLE BORDER="0" CELLBORDER="0" CELLSPACING="1" CELLPADDING="2"><TR><TD PORT="o15" BGCOLOR="#e4e4e4"><FONT POINT-SIZE="8">15</FONT></TD></TR></TABLE></TD></TR></TABLE>>];
  c2:o15:e -> p0i2;
  p0o3 -> c1:i0:w;
  p0i2 -> p1i1;
  p1o0 -> p0o3;
  p1i1 -> c0:i4:w;
  c0:o0:e -> p1o0;
  inputs [shape=plaintext, fontcolor="#767676"];
  inputs -> c0:i0:w [label="2 inputs", style=dashed];
  inputs -> c0:i4:w [label="1 input", style=dashed];
  inputs -> c1:i0:w [label="1 input", style=dashed];
}
"##,
    },
    // A machine, whose parameters stand in its order, with a list of four numbers and one of five.
    Graph {
        file: r#"{"format": "tw-3", "micro_limit": 9,
 "models": [{"name": "m", "parameters": ["seed", "low", "all", "many", "high"],
  "tables": {"a": "all", "b": "many"}, "words": ["a[0] + b[0] + low + high + seed"]}],
 "components": [{"name": "x", "model": "m", "high": 4, "low": -1, "seed": 3, "all": [1, 2, 3, -4], "many": [9, 8, 7, 6, 5]}],
 "couplings": [], "inputs": []}"#,
        wanted: r##"  c0 [label=<<TABLE BORDER="1" CELLBORDER="0" CELLSPACING="0" CELLPADDING="0" BGCOLOR="white"><TR><TD CELLPADDING="5"><B>x</B><BR/>m<BR/><FONT POINT-SIZE="9">seed 3, low -1, all [1, 2, 3, -4],<BR/>many [9, 8, 7, .. 5 in all], high 4</FONT></TD></TR></TABLE>>];
}
"##,
    },
    // No network: signs of the markup are escaped, what has no end is left out, and so are ports of the whole file.
    Graph {
        file: r#"{"components": [{"name": "a<b>&\"c\"\n", "model": "queue", "service": "<0>"}],
 "couplings": [["a", 0, "b", 0], ["", 0, "a<b>&\"c\"\n", 0], 7, ["a<b>&\"c\"\n", 16, "a<b>&\"c\"\n", 0]],
 "inputs": [{"to": "", "port": 0}, {"to": "b.c", "port": 1}, {}]}"#,
        wanted: r##"  c0 [label=<<TABLE BORDER="1" CELLBORDER="0" CELLSPACING="0" CELLPADDING="0" BGCOLOR="white"><TR><TD CELLPADDING="5"><B>a&lt;b&gt;&amp;&quot;c&quot; </B><BR/>queue<BR/><FONT POINT-SIZE="9">service &quot;&lt;0&gt;&quot;</FONT></TD></TR></TABLE>>];
}
"##,
    },
    // Nothing at all.
    Graph {
        file: "[]",
        wanted: "}\n",
    },
];

/// Asserts what is written of a file.
fn assert_graph(rt: &impl Abort, alloc: Global, graph: &Graph) {
    let value = Value::from_slice(alloc, graph.file.as_bytes()).expect(rt, "JSON");
    let mut out = Vec::new(alloc);
    let written = write_dot(alloc, &value, &mut out);
    let text = from_utf8(out.as_slice()).ok().expect(rt, "a text");
    assert!(rt; written == Ok(()) && text.strip_prefix(HEAD) == Some(graph.wanted));
}

#[test]
fn writes_graphs(rt: HostRuntime) {
    for graph in GRAPHS.as_slice() {
        assert_graph(&rt, rt.alloc(), graph);
    }
}

/// A writer that has no room fails.
#[test]
fn tells_of_a_failed_writer(rt: HostRuntime) {
    let mut room = [0u8; 8];
    let mut out = room.as_mut_slice();
    let written = write_dot(rt.alloc(), &Value::Null, &mut out);
    assert!(rt; written == Err(NotWritten::WriteFailed));
}
