//! Networks of machines, with the lines of their runs. More of them are cases of the built program.

use super::helpers::{Part, Scene};

/// A generator and a tally, written as machines: the records are those of the models that are built in.
pub(crate) static TALLY: Scene = Scene {
    machines: &[
        r#"{"name": "maker",
                "parameters": ["period", "amount"],
                "registers": {"count": 0},
                "first": "period",
                "internal": ["count += 1", "wait period"],
                "output": [{"port": 0, "value": "amount"}],
                "words": ["count"]}"#,
        r#"{"name": "adder",
                "registers": {"count": 0, "sum": 0, "last": 0},
                "external": ["count += 1", "sum += value", "last = value"],
                "words": ["count", "sum", "last"]}"#,
    ],
    parts: &[
        Part(
            "g",
            0,
            r#"{"name": "g", "model": "maker", "period": 2, "amount": 5}"#,
        ),
        Part("t", 1, r#"{"name": "t", "model": "adder"}"#),
    ],
    couplings: &[(0, 0, 1, 0)],
    inputs: &[],
    until: 5,
    lines: "\
             2.0 g out 0=5\n\
             2.0 g int | 1\n\
             2.0 t ext 0=5 | 1 5 5\n\
             4.0 g out 0=5\n\
             4.0 g int | 2\n\
             4.0 t ext 0=5 | 2 10 5\n",
};

/// A desk that observes how long each customer waits before it is served: the first not, the second 2 ticks, the third 1.
pub(crate) static DESK: Scene = Scene {
    machines: &[
        r#"{"name": "desk",
                "parameters": ["service"],
                "queues": {"line": 8},
                "observations": ["delay"],
                "internal": ["pop line", "if length(line) > 0 { observe delay now - front(line)  wait service }"],
                "external": ["if length(line) == 0 { observe delay 0  wait service }", "push line now"],
                "words": ["length(line)", "delay", "now"]}"#,
    ],
    parts: &[Part("d", 0, r#"{"name": "d", "model": "desk", "service": 3}"#)],
    couplings: &[],
    inputs: &[(1, 0, 0, 0), (2, 0, 0, 0), (6, 0, 0, 0)],
    until: 100,
    lines: "\
             1.0 d ext 0=0 | 1 1 0 0 1\n\
             2.0 d ext 0=0 | 2 1 0 0 2\n\
             4.0 d out -\n\
             4.0 d int | 1 2 2 4 4\n\
             6.0 d ext 0=0 | 2 2 2 4 6\n\
             7.0 d out -\n\
             7.0 d int | 1 3 3 5 7\n\
             10.0 d out -\n\
             10.0 d int | 0 3 3 5 10\n",
};

/// A timer that another one stops, and that an item starts again.
pub(crate) static STOPPED: Scene = Scene {
    machines: &[
        r#"{"name": "waiter",
                "registers": {"alarms": 0, "gone": 0},
                "timers": [
                  {"name": "alarm", "first": 3, "do": ["alarms += 1", "stop patience"]},
                  {"name": "patience", "first": 5, "do": "gone += 1", "output": [{"port": 0, "value": 7}]}],
                "external": "start patience in value",
                "words": ["alarms", "gone", "running(patience)", "rest(patience)"]}"#,
    ],
    parts: &[Part("w", 0, r#"{"name": "w", "model": "waiter"}"#)],
    couplings: &[],
    inputs: &[(6, 0, 0, 2)],
    until: 100,
    lines: "\
             3.0 w out -\n\
             3.0 w int | 1 0 0 -1\n\
             6.0 w ext 0=2 | 1 0 1 2\n\
             8.0 w out 0=7\n\
             8.0 w int | 1 1 0 -1\n",
};

/// Two timers that are due at once go by the order of the file, each in a microstep of its own.
pub(crate) static TWO_DUE: Scene = Scene {
    machines: &[
        r#"{"name": "pair",
                "registers": {"seen": 0},
                "timers": [
                  {"name": "late", "first": 2, "do": ["seen = seen * 10 + 1", "start late in 2"],
                   "output": [{"port": 0, "value": 1}]},
                  {"name": "early", "first": 2, "do": "seen = seen * 10 + 2", "output": [{"port": 0, "value": 2}]}],
                "words": ["seen", "now"]}"#,
    ],
    parts: &[Part("p", 0, r#"{"name": "p", "model": "pair"}"#)],
    couplings: &[],
    inputs: &[],
    until: 5,
    lines: "\
             2.0 p out 0=1\n\
             2.0 p int | 1 2\n\
             2.1 p out 0=2\n\
             2.1 p int | 12 2\n\
             4.0 p out 0=1\n\
             4.0 p int | 121 4\n",
};

/// A timer is started over while it runs: the new time counts, and a negative one is 0.
pub(crate) static STARTED_OVER: Scene = Scene {
    machines: &[
        r#"{"name": "again",
                "registers": {"n": 0},
                "timers": [{"name": "t", "first": 10, "do": "n += 1"}],
                "external": "start t in value",
                "words": ["n", "rest(t)", "running(t)"]}"#,
    ],
    parts: &[Part("a", 0, r#"{"name": "a", "model": "again"}"#)],
    couplings: &[],
    inputs: &[(4, 0, 0, 3), (5, 0, 0, 1), (8, 0, 0, -5)],
    until: 100,
    lines: "\
             4.0 a ext 0=3 | 0 3 1\n\
             5.0 a ext 0=1 | 0 1 1\n\
             6.0 a out -\n\
             6.0 a int | 1 -1 0\n\
             8.0 a ext 0=-5 | 1 0 1\n\
             8.1 a out -\n\
             8.1 a int | 2 -1 0\n",
};

/// An item comes when timers are due: the first of them goes, and then the item, which may stop another.
pub(crate) static CONFLUENT: Scene = Scene {
    machines: &[
        r#"{"name": "both",
                "registers": {"seen": 0},
                "timers": [
                  {"name": "t", "first": 5, "do": ["seen = seen * 10 + 1", "start t in 5"]},
                  {"name": "u", "first": 5, "do": "seen = seen * 10 + 2"}],
                "external": ["seen = seen * 10 + value", "stop u"],
                "words": ["seen"]}"#,
    ],
    parts: &[Part("b", 0, r#"{"name": "b", "model": "both"}"#)],
    couplings: &[],
    inputs: &[(5, 0, 0, 3)],
    until: 11,
    lines: "\
             5.0 b out -\n\
             5.0 b con 0=3 | 13\n\
             10.0 b out -\n\
             10.0 b int | 131\n",
};

/// What is sent goes out one microstep later, whole and in the order of sending; no timer goes in that step, and what
/// comes in it may send anew.
pub(crate) static SENT: Scene = Scene {
    machines: &[
        r#"{"name": "sender",
                "registers": {"n": 0},
                "timers": [
                  {"name": "t", "first": 2, "do": ["n += 1", "send 0, 5"]},
                  {"name": "u", "first": 2, "do": "n += 10", "output": [{"port": 3, "value": "n"}]}],
                "external": ["send 1, value", "send 16, value"],
                "words": ["n", "now"]}"#,
        r#"{"name": "other",
                "timers": [{"name": "s", "first": 2, "do": "send 0, 9"}],
                "words": ["now"]}"#,
    ],
    parts: &[
        Part("m", 0, r#"{"name": "m", "model": "sender"}"#),
        Part("x", 1, r#"{"name": "x", "model": "other"}"#),
    ],
    couplings: &[(1, 0, 0, 0)],
    inputs: &[],
    until: 100,
    lines: "\
             2.0 m out -\n\
             2.0 x out -\n\
             2.0 m int | 1 2\n\
             2.0 x int | 2\n\
             2.1 m out 0=5\n\
             2.1 x out 0=9\n\
             2.1 m con 0=9 | 1 2\n\
             2.1 x int | 2\n\
             2.2 m out 1=9\n\
             2.2 m int | 1 2\n\
             2.3 m out 3=1\n\
             2.3 m int | 11 2\n",
};

/// A machine with timers that has none of them: it replies to what comes.
pub(crate) static REPLIED: Scene = Scene {
    machines: &[
        r#"{"name": "echo", "timers": [], "external": "send value % 2, value + 1", "words": ["now"]}"#,
    ],
    parts: &[Part("e", 0, r#"{"name": "e", "model": "echo"}"#)],
    couplings: &[],
    inputs: &[(1, 0, 0, 4), (1, 0, 0, 7)],
    until: 100,
    lines: "\
             1.0 e ext 0=4 0=7 | 1\n\
             1.1 e out 0=5 1=8\n\
             1.1 e int | 1\n",
};

/// Timers that are alike: the number of the one that goes, the first that is idle, an index past the last one.
pub(crate) static ALIKE: Scene = Scene {
    machines: &[
        r#"{"name": "servers",
                "parameters": ["count"],
                "registers": {"which_last": 0, "served": 0},
                "procedures": [["mark", "which_last = which + 1"]],
                "timers": [
                  {"name": "never", "first": -1},
                  {"name": "server", "count": "count", "do": ["served += 1", "do mark"],
                   "output": [{"port": 0, "value": "which", "when": "which != 1"}]}],
                "external": ["do mark", "if value > 0 { start server[idle(server)] in value } else { stop server[9] }"],
                "words": ["served", "which_last", "idle(server)", "rest(server[0])", "rest(server[1])", "rest(server[2])"]}"#,
    ],
    parts: &[Part("s", 0, r#"{"name": "s", "model": "servers", "count": 3}"#)],
    couplings: &[],
    inputs: &[(1, 0, 0, 4), (2, 0, 0, 2), (3, 0, 0, 7), (6, 0, 0, 0)],
    until: 100,
    lines: "\
             1.0 s ext 0=4 | 0 1 1 4 -1 -1\n\
             2.0 s ext 0=2 | 0 1 2 3 2 -1\n\
             3.0 s ext 0=7 | 0 1 -1 2 1 7\n\
             4.0 s out -\n\
             4.0 s int | 1 2 1 1 -1 6\n\
             5.0 s out 0=0\n\
             5.0 s int | 2 1 0 -1 -1 5\n\
             6.0 s ext 0=0 | 2 1 0 -1 -1 -1\n",
};

/// No timer runs for less than the least time, by `first` or by `start`.
pub(crate) static LEAST: Scene = Scene {
    machines: &[
        r#"{"name": "slow", "parameters": ["least"], "least": "least",
                "registers": {"n": 0},
                "timers": [{"name": "t", "first": 1, "do": ["n += 1", "start t in 0"]}],
                "words": ["n"]}"#,
    ],
    parts: &[Part("s", 0, r#"{"name": "s", "model": "slow", "least": 3}"#)],
    couplings: &[],
    inputs: &[],
    until: 8,
    lines: "\
             3.0 s out -\n\
             3.0 s int | 1\n\
             6.0 s out -\n\
             6.0 s int | 2\n",
};

/// A timer runs while its outputs are sent, and not while its program runs.
pub(crate) static RUNNING: Scene = Scene {
    machines: &[
        r#"{"name": "one",
                "registers": {"x": 5},
                "timers": [{"name": "t", "first": 2, "do": "x = running(t) * 10 + rest(t)",
                            "output": [{"port": 0, "value": "running(t) * 10 + rest(t)"}, {"port": 1, "value": 3, "when": 0}]}],
                "words": ["x"]}"#,
    ],
    parts: &[Part("o", 0, r#"{"name": "o", "model": "one"}"#)],
    couplings: &[],
    inputs: &[],
    until: 100,
    lines: "\
             2.0 o out 0=10\n\
             2.0 o int | -1\n",
};

/// What does not fit among the 64 items that are to be sent is lost.
pub(crate) static FULL: Scene = Scene {
    machines: &[
        r#"{"name": "many",
                "timers": [{"name": "t", "first": 1, "do": ["repeat 64 { send 0, turn }", "send 1, 99"]}],
                "words": ["now"]}"#,
    ],
    parts: &[Part("m", 0, r#"{"name": "m", "model": "many"}"#)],
    couplings: &[],
    inputs: &[],
    until: 100,
    lines: "\
             1.0 m out -\n\
             1.0 m int | 1\n\
             1.1 m out 0=0 0=1 0=2 0=3 0=4 0=5 0=6 0=7 0=8 0=9 0=10 0=11 0=12 0=13 0=14 0=15 0=16 0=17 0=18 0=19 0=20 0=21 0=22 0=23 0=24 0=25 0=26 0=27 0=28 0=29 0=30 0=31 0=32 0=33 0=34 0=35 0=36 0=37 0=38 0=39 0=40 0=41 0=42 0=43 0=44 0=45 0=46 0=47 0=48 0=49 0=50 0=51 0=52 0=53 0=54 0=55 0=56 0=57 0=58 0=59 0=60 0=61 0=62 0=63\n\
             1.1 m int | 1\n",
};
