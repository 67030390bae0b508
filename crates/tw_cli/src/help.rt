//! What help says below the arguments, and the version.

/// The version, and the line of the kit that proves this program.
pub(crate) const VERSION: &str = "0.1.0 (rattle-kit-13f logic dac8208d650f15bf)";

pub(crate) const TWARP_END: &str = "Example: twarp demo

Exit status: 0 success; 2 bad command line or file; 3 a component met a limit; 4 out of memory or nodes; 5 standard output failed.
Environment: with a variable TWARP_EXPLAIN, seq, run, play and demo say in words why they are refused, as the others always do.
Formats of the network file, the trace and the script, and all refusals: docs/FORMATS.md.
";

pub(crate) const DEMO_END: &str = "Example: twarp demo

Exit status: 0 success; 4 out of memory; 5 standard output failed.
Format of the trace: docs/FORMATS.md, \"Texts\".
";

pub(crate) const CHECK_END: &str = "Example: twarp check examples/gen-tally.json

Exit status: 0 no fault; 2 a fault, or with --strict a warning: its number is on standard error, its place and reason on standard output; 4 out of memory; 5 standard output failed.
Format of the network file: docs/FORMATS.md.
";

pub(crate) const DOT_END: &str = "Example: twarp dot examples/two-lines.json | dot -Tsvg >lines.svg

Exit status: 0 success; 2 bad command line or file; 4 out of memory; 5 standard output failed.
What the picture shows: docs/PICTURES.md.
";

pub(crate) const SEQ_END: &str = "Example: twarp seq examples/gen-tally.json --until 5

Exit status: 0 success; 2 bad command line or file; 3 a component met a limit; 4 out of memory; 5 standard output failed.
Formats of the network file and the trace: docs/FORMATS.md.
";

pub(crate) const STATS_END: &str = "Example: twarp stats examples/gen-tally.json --until 5 --from 2

Exit status: 0 success; 2 bad command line or file; 3 a component met a limit: its line is on standard error; 4 out of memory or nodes; 5 standard output failed.
Figures of each model, means, and the JSON: docs/FORMATS.md. When workers pay: docs/GUIDE.md.
";

pub(crate) const TABLE_END: &str = "Example: twarp table examples/gen-tally.json --until 5 --items

Exit status: 0 success; 2 bad command line or file; 3 a component met a limit: its line is on standard error; 4 out of memory or nodes; 5 standard output failed.
Columns: docs/FORMATS.md. When workers pay: docs/GUIDE.md.
";

pub(crate) const DRAW_END: &str =
    "Example: twarp draw examples/ring-of-queues.json --until 16 >ring.svg

Exit status: 0 success; 2 bad command line, file or script; 3 a component met a limit: its line is on standard error; 4 out of memory; 5 standard output failed.
What the pictures show: docs/PICTURES.md.
";

pub(crate) const RUN_END: &str =
    "Example: twarp run examples/ring-of-queues.json --until 16 --workers 2 --burst 1

Exit status: 0 success; 2 bad command line or file; 3 a component met a limit; 4 out of memory or nodes; 5 standard output failed.
Formats of the network file and the trace: docs/FORMATS.md. How to choose the options: docs/GUIDE.md.
";

pub(crate) const PLAY_END: &str =
    "Example: twarp play examples/a-row.json --until 10 --script examples/straggler.txt

Exit status: 0 success; 2 bad command line, file or script; 4 out of memory; 5 standard output failed.
Formats of the network file, the script, the replies and the trace: docs/FORMATS.md.
";
