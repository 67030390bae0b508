//! Command lines and the jobs that they ask for. The lines that are refused, and what help says, are tried on the program.

use std::alloc::Global;
use std::process::Abort;
use tw_cli::job;

/// Lines that are taken, each before what is answered to it.
const TAKEN: &str = r#"twarp demo
Demo
twarp check n.json
Check { net: NetSource { path: "n.json", settings: Settings { assignments: [], replication: 0 } }, strict: false }
twarp check -- -n.json
Check { net: NetSource { path: "-n.json", settings: Settings { assignments: [], replication: 0 } }, strict: false }
twarp check --set a.b=-5 n.json --seed-all 7 --set left.saw.service=18446744073709551615
Check { net: NetSource { path: "n.json", settings: Settings { assignments: [Assignment { target: "a.b", number: Number(-5) }, Assignment { target: "left.saw.service", number: Number(18446744073709551615) }], replication: 7 } }, strict: false }
twarp check --strict n.json
Check { net: NetSource { path: "n.json", settings: Settings { assignments: [], replication: 0 } }, strict: true }
twarp dot n.json
Dot { net: NetSource { path: "n.json", settings: Settings { assignments: [], replication: 0 } } }
twarp seq n.json --until 5
Simulate { net: NetSource { path: "n.json", settings: Settings { assignments: [], replication: 0 } }, until: 5, task: Seq { progress: false } }
twarp seq n.json --until=5
Simulate { net: NetSource { path: "n.json", settings: Settings { assignments: [], replication: 0 } }, until: 5, task: Seq { progress: false } }
twarp seq --until 5 n.json
Simulate { net: NetSource { path: "n.json", settings: Settings { assignments: [], replication: 0 } }, until: 5, task: Seq { progress: false } }
twarp seq n.json --until 0
Simulate { net: NetSource { path: "n.json", settings: Settings { assignments: [], replication: 0 } }, until: 0, task: Seq { progress: false } }
twarp seq n.json --until +5
Simulate { net: NetSource { path: "n.json", settings: Settings { assignments: [], replication: 0 } }, until: 5, task: Seq { progress: false } }
twarp seq n.json --until 007
Simulate { net: NetSource { path: "n.json", settings: Settings { assignments: [], replication: 0 } }, until: 7, task: Seq { progress: false } }
twarp seq --until 5 -- -n.json
Simulate { net: NetSource { path: "-n.json", settings: Settings { assignments: [], replication: 0 } }, until: 5, task: Seq { progress: false } }
twarp seq n.json --until 1099511627774
Simulate { net: NetSource { path: "n.json", settings: Settings { assignments: [], replication: 0 } }, until: 1099511627774, task: Seq { progress: false } }
twarp seq --progress n.json --until 5
Simulate { net: NetSource { path: "n.json", settings: Settings { assignments: [], replication: 0 } }, until: 5, task: Seq { progress: true } }
twarp stats n.json --until 5
Simulate { net: NetSource { path: "n.json", settings: Settings { assignments: [], replication: 0 } }, until: 5, task: Stats { from: None, only: None, json: false, progress: false, by: None } }
twarp stats --json --until=5 --progress n.json
Simulate { net: NetSource { path: "n.json", settings: Settings { assignments: [], replication: 0 } }, until: 5, task: Stats { from: None, only: None, json: true, progress: true, by: None } }
twarp stats n.json --from 0 --until 5
Simulate { net: NetSource { path: "n.json", settings: Settings { assignments: [], replication: 0 } }, until: 5, task: Stats { from: Some(0), only: None, json: false, progress: false, by: None } }
twarp stats n.json --from=1099511627774 --json --until 5
Simulate { net: NetSource { path: "n.json", settings: Settings { assignments: [], replication: 0 } }, until: 5, task: Stats { from: Some(1099511627774), only: None, json: true, progress: false, by: None } }
twarp stats n.json --only a,b --until 5
Simulate { net: NetSource { path: "n.json", settings: Settings { assignments: [], replication: 0 } }, until: 5, task: Stats { from: None, only: Some("a,b"), json: false, progress: false, by: None } }
twarp stats n.json --until 5 --workers 3
Simulate { net: NetSource { path: "n.json", settings: Settings { assignments: [], replication: 0 } }, until: 5, task: Stats { from: None, only: None, json: false, progress: false, by: Some(ByWorkers { cancel: Aggressive, setting: RunOptions { workers: Count(3), burst: 64, window: 1099511627774, progress: false } }) } }
twarp stats n.json --until 5 --workers auto --burst 1 --window 0 --cancel lazy --json --progress
Simulate { net: NetSource { path: "n.json", settings: Settings { assignments: [], replication: 0 } }, until: 5, task: Stats { from: None, only: None, json: true, progress: true, by: Some(ByWorkers { cancel: Lazy, setting: RunOptions { workers: Auto, burst: 1, window: 0, progress: true } }) } }
twarp table n.json --until 5
Simulate { net: NetSource { path: "n.json", settings: Settings { assignments: [], replication: 0 } }, until: 5, task: Table { from: 0, only: None, of: OfRun(Records), progress: false, by: None } }
twarp table n.json --until 5 --items
Simulate { net: NetSource { path: "n.json", settings: Settings { assignments: [], replication: 0 } }, until: 5, task: Table { from: 0, only: None, of: OfRun(Items), progress: false, by: None } }
twarp table --words --progress --until 5 -- --items
Simulate { net: NetSource { path: "--items", settings: Settings { assignments: [], replication: 0 } }, until: 5, task: Table { from: 0, only: None, of: OfRun(Words), progress: true, by: None } }
twarp table n.json --from 7 --until 5 --words
Simulate { net: NetSource { path: "n.json", settings: Settings { assignments: [], replication: 0 } }, until: 5, task: Table { from: 7, only: None, of: OfRun(Words), progress: false, by: None } }
twarp table n.json --until 5 --figures --only a
Simulate { net: NetSource { path: "n.json", settings: Settings { assignments: [], replication: 0 } }, until: 5, task: Table { from: 0, only: Some("a"), of: OfFigures, progress: false, by: None } }
twarp table n.json --until 5 --figures --workers=64 --window=7
Simulate { net: NetSource { path: "n.json", settings: Settings { assignments: [], replication: 0 } }, until: 5, task: Table { from: 0, only: None, of: OfFigures, progress: false, by: Some(ByWorkers { cancel: Aggressive, setting: RunOptions { workers: Count(64), burst: 64, window: 7, progress: false } }) } }
twarp draw n.json --until 5
Simulate { net: NetSource { path: "n.json", settings: Settings { assignments: [], replication: 0 } }, until: 5, task: Draw { picture: Run(View { from: 0, only: None, figures: [], width: 1280, detail: Fitting }) } }
twarp draw n.json --until 5 --from +2 --only a,b --figure jobs
Simulate { net: NetSource { path: "n.json", settings: Settings { assignments: [], replication: 0 } }, until: 5, task: Draw { picture: Run(View { from: 2, only: Some("a,b"), figures: ["jobs"], width: 1280, detail: Fitting }) } }
twarp draw n.json --until 5 --from 1099511627774
Simulate { net: NetSource { path: "n.json", settings: Settings { assignments: [], replication: 0 } }, until: 5, task: Draw { picture: Run(View { from: 1099511627774, only: None, figures: [], width: 1280, detail: Fitting }) } }
twarp draw n.json --until 5 --figure jobs --width 600 --figure a=b=c --marks
Simulate { net: NetSource { path: "n.json", settings: Settings { assignments: [], replication: 0 } }, until: 5, task: Draw { picture: Run(View { from: 0, only: None, figures: ["jobs", "a=b=c"], width: 600, detail: Marks }) } }
twarp draw n.json --until 5 --courses --width=4000
Simulate { net: NetSource { path: "n.json", settings: Settings { assignments: [], replication: 0 } }, until: 5, task: Draw { picture: Run(View { from: 0, only: None, figures: [], width: 4000, detail: Courses }) } }
twarp draw n.json --until 5 --script s
Simulate { net: NetSource { path: "n.json", settings: Settings { assignments: [], replication: 0 } }, until: 5, task: Draw { picture: Warp { cancel: Aggressive, driver: Script("s") } } }
twarp draw n.json --until 5 --cancel lazy --seed 1 --steps 2
Simulate { net: NetSource { path: "n.json", settings: Settings { assignments: [], replication: 0 } }, until: 5, task: Draw { picture: Warp { cancel: Lazy, driver: Seed { seed: 1, steps: 2 } } } }
twarp run n.json --until 5
Simulate { net: NetSource { path: "n.json", settings: Settings { assignments: [], replication: 0 } }, until: 5, task: Run { cancel: Aggressive, setting: RunOptions { workers: Count(2), burst: 64, window: 1099511627774, progress: false } } }
twarp run n.json --until 0 --workers 1
Simulate { net: NetSource { path: "n.json", settings: Settings { assignments: [], replication: 0 } }, until: 0, task: Run { cancel: Aggressive, setting: RunOptions { workers: Count(1), burst: 64, window: 1099511627774, progress: false } } }
twarp run n.json --until 5 --workers 64
Simulate { net: NetSource { path: "n.json", settings: Settings { assignments: [], replication: 0 } }, until: 5, task: Run { cancel: Aggressive, setting: RunOptions { workers: Count(64), burst: 64, window: 1099511627774, progress: false } } }
twarp run n.json --until 5 --workers=auto
Simulate { net: NetSource { path: "n.json", settings: Settings { assignments: [], replication: 0 } }, until: 5, task: Run { cancel: Aggressive, setting: RunOptions { workers: Auto, burst: 64, window: 1099511627774, progress: false } } }
twarp run n.json --until 5 --burst 1
Simulate { net: NetSource { path: "n.json", settings: Settings { assignments: [], replication: 0 } }, until: 5, task: Run { cancel: Aggressive, setting: RunOptions { workers: Count(2), burst: 1, window: 1099511627774, progress: false } } }
twarp run n.json --until 5 --burst 256
Simulate { net: NetSource { path: "n.json", settings: Settings { assignments: [], replication: 0 } }, until: 5, task: Run { cancel: Aggressive, setting: RunOptions { workers: Count(2), burst: 256, window: 1099511627774, progress: false } } }
twarp run n.json --until 5 --window 0
Simulate { net: NetSource { path: "n.json", settings: Settings { assignments: [], replication: 0 } }, until: 5, task: Run { cancel: Aggressive, setting: RunOptions { workers: Count(2), burst: 64, window: 0, progress: false } } }
twarp run n.json --until 1099511627774 --window 1099511627774 --cancel aggressive
Simulate { net: NetSource { path: "n.json", settings: Settings { assignments: [], replication: 0 } }, until: 1099511627774, task: Run { cancel: Aggressive, setting: RunOptions { workers: Count(2), burst: 64, window: 1099511627774, progress: false } } }
twarp run --window=+7 --burst=007 --workers=3 --cancel=lazy --until=5 n.json
Simulate { net: NetSource { path: "n.json", settings: Settings { assignments: [], replication: 0 } }, until: 5, task: Run { cancel: Lazy, setting: RunOptions { workers: Count(3), burst: 7, window: 7, progress: false } } }
twarp run --workers 2 --until 5 --cancel lazy -- -n.json
Simulate { net: NetSource { path: "-n.json", settings: Settings { assignments: [], replication: 0 } }, until: 5, task: Run { cancel: Lazy, setting: RunOptions { workers: Count(2), burst: 64, window: 1099511627774, progress: false } } }
twarp run n.json --until 5 --progress
Simulate { net: NetSource { path: "n.json", settings: Settings { assignments: [], replication: 0 } }, until: 5, task: Run { cancel: Aggressive, setting: RunOptions { workers: Count(2), burst: 64, window: 1099511627774, progress: true } } }
twarp run --progress n.json --until 5 --workers 3 --cancel lazy
Simulate { net: NetSource { path: "n.json", settings: Settings { assignments: [], replication: 0 } }, until: 5, task: Run { cancel: Lazy, setting: RunOptions { workers: Count(3), burst: 64, window: 1099511627774, progress: true } } }
twarp run --until 5 -- --progress
Simulate { net: NetSource { path: "--progress", settings: Settings { assignments: [], replication: 0 } }, until: 5, task: Run { cancel: Aggressive, setting: RunOptions { workers: Count(2), burst: 64, window: 1099511627774, progress: false } } }
twarp play n.json --until 5 --script s
Simulate { net: NetSource { path: "n.json", settings: Settings { assignments: [], replication: 0 } }, until: 5, task: Play { cancel: Aggressive, driver: Script("s") } }
twarp play n.json --until 5 --seed 1 --steps 2
Simulate { net: NetSource { path: "n.json", settings: Settings { assignments: [], replication: 0 } }, until: 5, task: Play { cancel: Aggressive, driver: Seed { seed: 1, steps: 2 } } }
twarp play n.json --until 0 --script=s --cancel aggressive
Simulate { net: NetSource { path: "n.json", settings: Settings { assignments: [], replication: 0 } }, until: 0, task: Play { cancel: Aggressive, driver: Script("s") } }
twarp play --cancel lazy --script s --until 5 n.json
Simulate { net: NetSource { path: "n.json", settings: Settings { assignments: [], replication: 0 } }, until: 5, task: Play { cancel: Lazy, driver: Script("s") } }
twarp play n.json --until=5 --steps=007 --seed=+7 --cancel=lazy
Simulate { net: NetSource { path: "n.json", settings: Settings { assignments: [], replication: 0 } }, until: 5, task: Play { cancel: Lazy, driver: Seed { seed: 7, steps: 7 } } }
twarp play n.json --until 1099511627774 --seed 18446744073709551615 --steps 1000000
Simulate { net: NetSource { path: "n.json", settings: Settings { assignments: [], replication: 0 } }, until: 1099511627774, task: Play { cancel: Aggressive, driver: Seed { seed: 18446744073709551615, steps: 1000000 } } }
twarp play n.json --until 5 --seed 0 --steps 0
Simulate { net: NetSource { path: "n.json", settings: Settings { assignments: [], replication: 0 } }, until: 5, task: Play { cancel: Aggressive, driver: Seed { seed: 0, steps: 0 } } }
twarp seq n.json
Some(BadLine)
twarp --version
None
twarp play --help
None
"#;

/// Asserts what is answered to a line, whose words have one space between each two: the job, or the refusal, which help has not.
fn assert_answer(rt: &impl Abort, alloc: Global, line: &str, wanted: &str) {
    let mut words = Vec::new(alloc);
    for word in line.split(' ') {
        let word = String::from_str(alloc, word).expect(rt, "memory");
        words.push(word).ok().expect(rt, "memory");
    }
    let answer = match job(alloc, words.as_slice()) {
        Ok(job) => format!(in alloc; "{job:?}"),
        Err(no_job) => format!(in alloc; "{:?}", no_job.refusal()),
    };
    let found = answer.expect(rt, "memory");
    assert!(rt; found.as_str() == wanted, "{line}");
}

#[test]
fn takes_the_lines_of_each_job(rt: HostRuntime) {
    assert!(rt; TAKEN.lines().count() == 116);
    let mut lines = TAKEN.lines();
    while let (Some(line), Some(wanted)) = (lines.next(), lines.next()) {
        assert_answer(&rt, rt.alloc(), line, wanted);
    }
}
