use crate::earliest::EarliestDue;
use crate::until::asks_until;
use pickers::frame::Frame;
use pickers::picker::Picker;
use pickers::round::Round;
use std::test::Fail;
use vocabulary::crew::Crew;
use vocabulary::refusal::Refusal;

#[test]
fn round_names_in_turn(rt: HostRuntime) -> Result<(), Fail> {
    let mut round = Round::of(Crew::try_from(3u64)?);
    assert_eq!(rt; round.tell().crew, 3);
    assert_eq!(rt; round.tell().window, 3);
    for worker in [0, 1, 2, 0, 1] {
        assert_eq!(rt; round.ask(), worker);
    }
    Ok(())
}

#[test]
fn frame_names_its_row(rt: HostRuntime) -> Result<(), Fail> {
    let mut frame = Frame::first(Crew::try_from(3u64)?);
    for worker in [0, 1, 2, 0] {
        assert_eq!(rt; frame.ask(), worker);
    }
    assert_eq!(rt; frame.fill(&[0, 1, 2, 1]), Ok(()));
    assert_eq!(rt; frame.tell().crew, 3);
    assert_eq!(rt; frame.tell().window, 4);
    for worker in [0, 1, 2, 1, 0] {
        assert_eq!(rt; frame.ask(), worker);
    }
    Ok(())
}

#[test]
fn refused_row_changes_nothing(rt: HostRuntime) -> Result<(), Fail> {
    let mut frame = Frame::first(Crew::try_from(3u64)?);
    assert_eq!(rt; frame.fill(&[0, 1, 2, 1]), Ok(()));
    assert_eq!(rt; frame.ask(), 0);
    assert_eq!(rt; frame.ask(), 1);
    assert_eq!(rt; frame.fill(&[]), Err(Refusal::FrameLength));
    assert_eq!(rt; frame.fill(&[3; 65]), Err(Refusal::FrameLength));
    assert_eq!(rt; frame.fill(&[0, 3]), Err(Refusal::ForeignWorker));
    assert_eq!(rt; frame.fill(&[0, 2, 0]), Err(Refusal::WorkerLeftOut));
    assert_eq!(rt; frame.tell().window, 4);
    for worker in [2, 1, 0] {
        assert_eq!(rt; frame.ask(), worker);
    }
    Ok(())
}

#[test]
fn earliest_due_is_named(rt: HostRuntime) {
    let mut picker = EarliestDue::start();
    for worker in [0, 1, 2, 0, 0, 1, 2, 0] {
        assert_eq!(rt; picker.ask(), worker);
    }
}

#[test]
fn asks_until_the_worker_is_named(rt: HostRuntime) -> Result<(), Fail> {
    let mut frame = Frame::first(Crew::try_from(3u64)?);
    assert_eq!(rt; asks_until(&mut frame, 1), Some(2));
    assert_eq!(rt; asks_until(&mut frame, 1), Some(3));
    assert_eq!(rt; asks_until(&mut frame, 3), None);
    let mut picker = EarliestDue::start();
    assert_eq!(rt; asks_until(&mut picker, 2), Some(3));
    assert_eq!(rt; asks_until(&mut picker, 2), Some(4));
    Ok(())
}
