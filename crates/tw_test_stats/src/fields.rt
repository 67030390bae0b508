//! The columns that a table of items has for the fields of a value, worked out by hand, of a generator and its tally.

use crate::tests::{COUNTED, TwoNames, network};
use std::alloc::Global;
use std::process::Abort;
use tw_figures::Rows;
use tw_listen::Nobody;
use tw_models::Model;
use tw_network::Network;
use tw_record_lines::{Column, Table, write_table, write_table_of};
use tw_seq::simulate;

/// What the generator sends, the fields of its value, and the table of tick 4.
struct Parted {
    value: i64,
    fields: &'static [Column<'static>],
    wanted: &'static str,
}

static PARTED: [Parted; 5] = [
    // 19290 * 64 + 1 * 4 + 3
    Parted {
        value: 1234567,
        fields: &[
            Column {
                name: "kind",
                low: 0,
                bits: 2,
            },
            Column {
                name: "place_2",
                low: 2,
                bits: 4,
            },
            Column {
                name: "rest",
                low: 6,
                bits: 57,
            },
        ],
        wanted: "\
tick,microstep,component,kind,port,value,kind,place_2,rest
4,0,g,out,0,1234567,3,1,19290
4,0,t,ext,0,1234567,3,1,19290
",
    },
    // -1 * 64 + 14 * 4 + 3, and -1 is 2^57 - 1 modulo 2^57
    Parted {
        value: -5,
        fields: &[
            Column {
                name: "rest",
                low: 6,
                bits: 57,
            },
            Column {
                name: "kind",
                low: 0,
                bits: 2,
            },
            Column {
                name: "place",
                low: 2,
                bits: 4,
            },
        ],
        wanted: "\
tick,microstep,component,kind,port,value,rest,kind,place
4,0,g,out,0,-5,144115188075855871,3,14
4,0,t,ext,0,-5,144115188075855871,3,14
",
    },
    // The least number has no bit below its sign.
    Parted {
        value: -9223372036854775808,
        fields: &[
            Column {
                name: "all",
                low: 0,
                bits: 62,
            },
            Column {
                name: "top",
                low: 62,
                bits: 1,
            },
        ],
        wanted: "\
tick,microstep,component,kind,port,value,all,top
4,0,g,out,0,-9223372036854775808,0,0
4,0,t,ext,0,-9223372036854775808,0,0
",
    },
    // The greatest has each. More than 62 counts as 62.
    Parted {
        value: 9223372036854775807,
        fields: &[
            Column {
                name: "all",
                low: 0,
                bits: 63,
            },
            Column {
                name: "top",
                low: 64,
                bits: 4294967295,
            },
        ],
        wanted: "\
tick,microstep,component,kind,port,value,all,top
4,0,g,out,0,9223372036854775807,4611686018427387903,1
4,0,t,ext,0,9223372036854775807,4611686018427387903,1
",
    },
    Parted {
        value: 5,
        fields: &[],
        wanted: "\
tick,microstep,component,kind,port,value
4,0,g,out,0,5
4,0,t,ext,0,5
",
    },
];

/// The table of items of tick 4 and later.
fn items(parted: &Parted) -> Table<'_, TwoNames> {
    Table {
        rows: Rows::Items,
        fields: parted.fields,
        names: &COUNTED.names,
        shown: &[true, true],
        from: 4,
    }
}

/// Asserts the table of a run in order, and of one that is made already.
fn assert_parted(rt: &impl Abort, alloc: Global, network: &Network<Model>, parted: &Parted) {
    let table = items(parted);
    let mut out = Vec::new(alloc);
    let written = write_table(alloc, network, 5, &table, &mut Nobody, &mut out);
    assert!(rt; written.is_ok());
    assert!(rt; out.as_slice() == parted.wanted.as_bytes());
    let seq = simulate(alloc, network, 5).ok().expect(rt, "a run");
    let mut out = Vec::new(alloc);
    let written = write_table_of(alloc, seq.records.as_slice(), &table, &mut out);
    assert!(rt; written.is_ok());
    assert!(rt; out.as_slice() == parted.wanted.as_bytes());
}

#[test]
fn parts_values_into_fields(rt: HostRuntime) {
    for parted in &PARTED {
        let first = Model::generator(2, parted.value);
        let first = first.ok().expect(&rt, "a generator");
        let network = network(&rt, rt.alloc(), &COUNTED, first, Model::Tally);
        assert_parted(&rt, rt.alloc(), &network, parted);
    }
}
