//! How tightly operators bind, and what is desugared, by examples that the check computes.
ghost use Rattle.tw_machine_text.specs.Examples.{
  not_equal,
  two_less,
  minus_times,
  and_or,
  behind_queues,
  chains,
  observing,
  observed,
  lengths,
  drawn_behind,
  drawn_test,
  drawn_else,
  drawn_chain,
  drawn_turns,
  few_drawn,
  fields_written,
  fields_packed,
  field_read,
  fields_named,
  no_chain,
  timed_words,
  starting,
  stopping,
  sending,
  asking,
  idling,
  timers_named,
  times_kept,
};

/// Each of these words is that program.
pub fn binding()
    ensures not_equal { not_equal }
    ensures two_less { two_less }
    ensures minus_times { minus_times }
    ensures and_or { and_or }
    ensures behind_queues { behind_queues }
    ensures chains { chains }
    ensures observing { observing }
    ensures observed { observed }
    ensures no_chain { no_chain }
{}

/// What numbers that are drawn come to, and where they may stand.
pub fn drawing()
    ensures lengths { lengths }
    ensures behind { drawn_behind }
    ensures test { drawn_test }
    ensures otherwise { drawn_else }
    ensures chain { drawn_chain }
    ensures turns { drawn_turns }
    ensures few { few_drawn }
{}

/// What fields of values come to, and where they may stand.
pub fn fields()
    ensures written { fields_written }
    ensures packed { fields_packed }
    ensures read { field_read }
    ensures named { fields_named }
{}

/// What is said of timers: how it is written, what it comes to, and where it may stand.
pub fn timing()
    ensures words { timed_words }
    ensures starting { starting }
    ensures stopping { stopping }
    ensures sending { sending }
    ensures asking { asking }
    ensures idling { idling }
    ensures named { timers_named }
    ensures kept { times_kept }
{}
