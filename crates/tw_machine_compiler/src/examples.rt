//! Machines by hand, which the check computes.
ghost use Rattle.tw_machine_compiler.specs.Examples.{
  adder_names,
  adder_adds,
  line_serves,
  line_computes,
  line_clears,
  clear_computes,
  line_drops,
  line_takes,
  pool_draws,
  pool_counts,
  pool_puts,
  pool_computes,
  pool_repeats,
  pool_turns,
  array_twice,
  last_twice,
  none_twice,
  lists_once,
  numbers_once,
};

/// Each of these statements is that one, and makes so many computations; a row stands twice among these words or not.
pub fn machines()
    ensures adder_names { adder_names }
    ensures adder_adds { adder_adds }
    ensures line_serves { line_serves }
    ensures line_computes { line_computes }
    ensures clears { line_clears }
    ensures clear_computes { clear_computes }
    ensures line_drops { line_drops }
    ensures line_takes { line_takes }
    ensures pool_draws { pool_draws }
    ensures pool_counts { pool_counts }
    ensures pool_puts { pool_puts }
    ensures pool_computes { pool_computes }
    ensures pool_repeats { pool_repeats }
    ensures pool_turns { pool_turns }
    ensures array_twice { array_twice }
    ensures last_twice { last_twice }
    ensures none_twice { none_twice }
{}

/// A list after which two tables are named stands once among the numbers, before those of all tables.
pub fn lists()
    ensures standings { lists_once }
    ensures numbers { numbers_once }
{}
