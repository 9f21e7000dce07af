use crate::{Link, OneStep, Taken};
use srmt_base::{Kind, Site, pack};
use std::process::Abort;
use std::test::Fail;

#[test]
fn one_step_gives_once_and_keeps_what_was_sent(rt: HostRuntime) -> Result<(), Fail> {
    let word = pack(Kind::Check, Site(1), 5);
    let mut step = OneStep::new(Taken::Word(word), 1, false);
    assert_eq!(rt; step.take(), Taken::Word(word));
    assert_eq!(rt; step.take(), Taken::NotYet);
    assert!(rt; step.room(1) && !step.room(2));
    step.send(word);
    assert!(rt; !step.room(1));
    assert!(rt; step.sent() == [word].as_slice());
    Ok(())
}

#[test]
fn one_step_drops_what_does_not_fit_once_the_other_side_is_gone(
    rt: HostRuntime,
) -> Result<(), Fail> {
    let word = pack(Kind::Ack, Site(1), 5);
    let mut step = OneStep::new(Taken::Closed, 0, true);
    assert!(rt; step.room(18));
    step.send(word);
    assert!(rt; step.sent().is_empty());
    assert_eq!(rt; step.take(), Taken::Closed);
    assert_eq!(rt; step.take(), Taken::Closed);
    Ok(())
}
