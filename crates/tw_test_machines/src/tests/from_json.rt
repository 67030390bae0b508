//! Machines of JSON values, read and run.

use super::helpers::{assert_run, read};
use super::scenes::{
    ALIKE, CONFLUENT, DESK, FULL, LEAST, REPLIED, RUNNING, SENT, STARTED_OVER, STOPPED, TALLY,
    TWO_DUE,
};

#[test]
fn a_generator_and_a_tally_run(rt: HostRuntime) {
    assert_run(&rt, rt.alloc(), &TALLY);
}

#[test]
fn a_desk_observes_delays(rt: HostRuntime) {
    assert_run(&rt, rt.alloc(), &DESK);
}

#[test]
fn a_machine_tells_its_parameters(rt: HostRuntime) {
    let text =
        r#"{"name": "m", "parameters": ["a", "times"], "tables": {"t": "times"}, "words": ["a", "t[0]"]}"#;
    let machine = read(&rt, rt.alloc(), text);
    assert!(rt; machine.name.as_str() == "m");
    assert!(rt; machine.numbers.len() == 1 && machine.lists.len() == 1);
}

#[test]
fn a_timer_stops_another(rt: HostRuntime) {
    assert_run(&rt, rt.alloc(), &STOPPED);
}

#[test]
fn timers_that_are_due_go_in_order(rt: HostRuntime) {
    assert_run(&rt, rt.alloc(), &TWO_DUE);
}

#[test]
fn a_timer_is_started_over(rt: HostRuntime) {
    assert_run(&rt, rt.alloc(), &STARTED_OVER);
}

#[test]
fn a_timer_goes_before_what_comes(rt: HostRuntime) {
    assert_run(&rt, rt.alloc(), &CONFLUENT);
}

#[test]
fn both_programs_send(rt: HostRuntime) {
    assert_run(&rt, rt.alloc(), &SENT);
}

#[test]
fn a_machine_without_timers_replies(rt: HostRuntime) {
    assert_run(&rt, rt.alloc(), &REPLIED);
}

#[test]
fn timers_are_alike(rt: HostRuntime) {
    assert_run(&rt, rt.alloc(), &ALIKE);
}

#[test]
fn a_timer_runs_for_the_least_time(rt: HostRuntime) {
    assert_run(&rt, rt.alloc(), &LEAST);
}

#[test]
fn a_timer_runs_while_it_sends(rt: HostRuntime) {
    assert_run(&rt, rt.alloc(), &RUNNING);
}

#[test]
fn what_does_not_fit_is_not_sent(rt: HostRuntime) {
    assert_run(&rt, rt.alloc(), &FULL);
}
