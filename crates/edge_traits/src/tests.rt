use crate::{
    Clock, Dialed, Dialer, Link, LinkRead, LinkStep, LinkSteps, LinkWrite, MemDialer, MemSink,
    MemSource, NetKind, ScriptLink, ScriptLinks, ScriptPart, Sink, SinkWrite, Source, SourceRead,
    SteadySink, SteadySource, StepClock,
};
use net_base::{ConnNo, Identity, Listed, Names, NoMem, Octets, PeerBook, Proto, Target, Via};
use std::alloc::Global;
use std::test::Fail;

#[test]
fn a_source_and_a_sink_fail_in_mid_stream(rt: HostRuntime) -> Result<(), Fail> {
    let alloc = rt.alloc();
    let mut buf = [0; 4];
    let mut source = MemSource::build(alloc, b"abc", 2, &[2])?;
    assert!(rt; matches!(source.read(&mut buf), SourceRead::Got(2)));
    assert!(rt; matches!(source.read(&mut buf), SourceRead::Failed));
    assert!(rt; matches!(source.read(&mut buf), SourceRead::Got(1)));
    assert!(rt; matches!(source.read(&mut buf), SourceRead::End));
    let mut sink = MemSink::build(alloc, 2, &[2])?;
    assert!(rt; matches!(sink.write(alloc, b"abc"), SinkWrite::Took(2)));
    assert!(rt; matches!(sink.write(alloc, b"c"), SinkWrite::Failed));
    assert!(rt; matches!(sink.write(alloc, b"c"), SinkWrite::Took(1)));
    assert_eq!(rt; sink.written(), b"abc".as_slice());
    Ok(())
}

#[test]
fn steady_ones_take_and_give_all(rt: HostRuntime) -> Result<(), Fail> {
    let alloc = rt.alloc();
    let mut buf = [0; 4];
    let mut source = SteadySource::build(alloc, b"abc")?;
    assert!(rt; matches!(source.read(&mut buf), SourceRead::Got(3)));
    let mut sink = SteadySink::new();
    assert!(rt; matches!(sink.write(alloc, b"abc"), SinkWrite::Took(3)));
    Ok(())
}

/// Quiet, "hello", the end.
fn script(alloc: Global) -> Result<LinkSteps, NoMem> {
    let mut steps = LinkSteps::new();
    steps.push(alloc, LinkStep::Quiet)?;
    steps.push(alloc, LinkStep::Give(Octets::build(alloc, b"hello")?))?;
    steps.push(alloc, LinkStep::End)?;
    Ok(steps)
}

#[test]
fn a_script_is_played_on_behind_a_fault(rt: HostRuntime) -> Result<(), Fail> {
    let alloc = rt.alloc();
    let mut link = ScriptLink::build(alloc, script(alloc)?, &[2])?;
    let mut buf = [0; 3];
    assert!(rt; matches!(link.read(alloc, &mut buf), LinkRead::Quiet));
    assert!(rt; matches!(link.write(alloc, b"abc"), LinkWrite::Took(3)));
    assert!(rt; matches!(link.write(alloc, b"d"), LinkWrite::Failed));
    assert!(rt; matches!(link.read(alloc, &mut buf), LinkRead::Got(3)));
    assert!(rt; matches!(link.read(alloc, &mut buf), LinkRead::Got(2)));
    assert!(rt; matches!(link.read(alloc, &mut buf), LinkRead::End));
    Ok(())
}

/// One link with that script.
fn one_part(alloc: Global) -> Result<ScriptLinks, NoMem> {
    let identity = Identity {
        names: Names::new(),
        secure: false,
        proto: Proto::H1,
        address: [7; 16],
    };
    let mut links = ScriptLinks::new();
    links.push(
        alloc,
        ScriptPart {
            identity,
            steps: script(alloc)?,
            write_fails: Listed::new(),
        },
    )?;
    Ok(links)
}

#[test]
fn a_dialer_logs_a_retired_link(rt: HostRuntime) -> Result<(), Fail> {
    let alloc = rt.alloc();
    let mut dialer = MemDialer::build(alloc, one_part(alloc)?, &[])?;
    dialer.stage(alloc, NetKind::Inner, &PeerBook::new())?;
    let target = Target {
        host: Octets::build(alloc, b"a.test")?,
        port: 80,
        secure: false,
        via: Via::Direct,
    };
    let Dialed::Up(mut link, _) = dialer.dial(alloc, ConnNo(7), &target) else {
        return Err(Fail::new("no link"));
    };
    assert!(rt; matches!(link.write(alloc, b"hi"), LinkWrite::Took(2)));
    dialer.retire(ConnNo(7), link);
    for line in dialer.log() {
        assert_eq!(rt; line.written.as_slice(), b"hi".as_slice());
    }
    assert!(rt; matches!(dialer.dial(alloc, ConnNo(8), &target), Dialed::Failed));
    assert_eq!(rt; dialer.records().len(), 2);
    Ok(())
}

#[test]
fn a_clock_goes_on_by_its_step(rt: HostRuntime) {
    let clock = StepClock::new(5);
    assert_eq!(rt; clock.now().0, 0);
    assert_eq!(rt; clock.now().0, 5);
    assert_eq!(rt; clock.now().0, 10);
    let long = StepClock::new(u64::MAX);
    let _ = (long.now(), long.now());
    assert_eq!(rt; long.now().0, 0, "twice the step has no place");
}
