//! Files of networks that have machines.

/// A desk, a sorter and a relay in a ring.
///
/// The desk has an array of counts, a short line and random numbers. It sends on one of three ports, or on two at
/// once. What comes counts how long it was idle, and may put off its next transition. The sorter has an array of
/// sorted queues and a queue of times, and sends all values of a queue.
pub(crate) const RING_OF_MACHINES: &str = r#"{"format": "tw-3", "micro_limit": 100,
 "models": [
  {"name": "desk", "parameters": ["seed", "times"], "random": "seed", "first": 1,
   "registers": {"sent": [0, 0, 0], "way": 0, "idle": 0, "lost": 0}, "queues": {"line": 4},
   "tables": {"time": "times"},
   "internal": ["sent[way] += length(line) > 0; pop line",
                "draw; way = random(3)",
                "wait time[random(4)]"],
   "external": ["if left > 1 { idle += elapsed } else { idle ^= left }",
                "if length(line) == room(line) { lost += 1; sent[value] = lost }",
                "else { push line (value + port) % 1000 }",
                "if left > 2 { draw; wait time[random(4)] }"],
   "output": [{"port": "way", "value": "front(line) + 1"},
              {"when": "length(line) > 2", "port": 3, "value": "sent[way]"}],
   "words": ["way", "idle", "lost", "random", "now", "sent", "line"]},

  {"name": "sorter", "parameters": ["parts"], "registers": {"taken": [0, 0], "turns": 0},
   "queues": {"part": ["parts", 5], "due": 8},
   "internal": ["turns += 1; pop due",
                "repeat parts {",
                "  if length(part[turn]) > 3 { remove part[turn] 1; taken[turn] += 1 }",
                "  else { taken[turn] ^= elapsed }",
                "}",
                "if length(due) > 0 { wait max(1, front(due) - now) }"],
   "external": ["insert part[value % parts] value",
                "if port == 1 { put due value % 3, now + 2 } else { push due now + 1 + value % 4 }",
                "wait max(0, front(due) - now)"],
   "output": [{"each": "part[0]", "when": "value > 1", "port": 0, "value": "value - 1"},
              {"port": 1, "value": "sum(part[parts - 1]) % 50"}],
   "words": ["turns", "now", "taken", "part[0]", "part[1]", "due"]}],
 "components": [
  {"name": "a", "model": "desk", "seed": 7, "times": [0, 1, 2, 5]},
  {"name": "s", "model": "sorter", "parts": 2},
  {"name": "r", "model": "relay", "delay": 1}],
 "couplings": [["a", 0, "s", 0], ["a", 1, "r", 0], ["a", 2, "s", 1], ["a", 3, "s", 0],
               ["s", 0, "r", 1], ["s", 1, "a", 1], ["r", 0, "a", 0]],
 "inputs": [{"tick": 0, "to": "s", "port": 1, "value": 3},
            {"tick": 4, "to": "a", "port": 2, "value": -5}]}"#;

/// Two hops and two desks, of which each sends to two others.
pub(crate) const HOPS_AND_DESKS: &str = r#"{"format": "tw-3", "micro_limit": 100,
 "models": [
  {"name": "desk", "parameters": ["seed", "places"], "random": "seed", "first": "seed",
   "registers": {"next": 0, "seen": [0, 0, 0, 0], "wait_sum": 0},
   "queues": {"jobs": "places", "ends": "places"},
   "internal": ["wait_sum += elapsed * length(jobs)",
                "pop jobs; pop ends",
                "if length(ends) > 0 { wait max(1, front(ends) - now) }",
                "else { draw; wait 3 + random(5) }"],
   "external": ["wait_sum += elapsed * length(jobs)",
                "seen[port] += 1; next = (next + seen[next]) % 4",
                "if length(jobs) < room(jobs) {",
                "  draw; next = place(ends, now + 2 + random(6))",
                "  put jobs next, value; insert ends now + 2 + random(6)",
                "} else if at(jobs, 1) < value { remove jobs 1; push jobs value }",
                "if left < 0 or left > 4 { wait 4 - min(elapsed, 3) }"],
   "output": [{"port": "length(jobs) % 2", "value": "front(jobs) + length(jobs)"},
              {"when": "next == 1", "port": 0, "value": "wait_sum"}],
   "words": ["next", "wait_sum", "random", "now", "seen", "jobs", "ends"]}],
 "components": [
  {"name": "h", "model": "hop", "seed": 1, "ports": 2, "spread": 4},
  {"name": "a", "model": "desk", "seed": 2, "places": 3},
  {"name": "i", "model": "hop", "seed": 3, "ports": 2, "spread": 4},
  {"name": "b", "model": "desk", "seed": 4, "places": 5}],
 "couplings": [["h", 0, "a", 0], ["h", 1, "b", 1], ["a", 0, "i", 0], ["a", 1, "b", 2],
               ["i", 0, "b", 0], ["i", 1, "h", 0], ["b", 0, "h", 1], ["b", 1, "a", 3]],
 "inputs": []}"#;

/// Two fuses that wait ever less, and at last not at all, until they meet the greatest microstep. What comes from
/// the other one makes a fuse longer.
pub(crate) const FUSES: &str = r#"{"format": "tw-3", "micro_limit": 5,
 "models": [
  {"name": "fuse", "parameters": ["length"], "registers": {"rest": "length", "got": 0},
   "first": "length",
   "internal": ["rest = max(0, rest - 1); wait rest"],
   "external": ["got += value; rest = min(9, rest + value)",
                "if left == 0 { wait 1 } else if left > 3 { wait rest }"],
   "output": [{"when": "rest > 0", "port": 0, "value": "rest % 3"}],
   "words": ["rest", "got"]}],
 "components": [{"name": "a", "model": "fuse", "length": 6}, {"name": "b", "model": "fuse", "length": 5},
                {"name": "t", "model": "tally"}],
 "couplings": [["a", 0, "b", 0], ["b", 0, "a", 1], ["a", 0, "t", 0], ["b", 0, "t", 1]],
 "inputs": []}"#;
