ghost use Rattle.edge_traits.specs.Dialers.{IsUnused};

use super::*;
use edge_traits::{
    CallNos, Dialer, LinkStep, LinkSteps, MemDialer, MemSink, MemSource, ScriptLinks, ScriptPart,
};
use journal_summary::write_summary;
use journal_text::read_journal;
use model_values::Config;
use net_base::{Identity, Names, NoMem, Octets, Proto};
use std::alloc::Global;
use std::test::Fail;

/// What a call came to: its status, and what was written.
#[derive(Debug, Drop)]
struct Outcome {
    status: u8,
    text: Octets,
}

fn ends_with(outcome: &Outcome, status: u8, text: &[u8]) -> bool {
    outcome.status == status && outcome.text.as_slice() == text
}

/// Runs the top call of one command over one dialer, where these calls of the source and of the sink fail.
fn call<D: Dialer>(
    alloc: Global,
    word: &str,
    input: &[u8],
    reads: &[u64],
    writes: &[u64],
    dialer: D,
) -> Result<Outcome, NoMem>
    requires { IsUnused (D.seen dialer) }
{
    let mut words = Vec::new(alloc);
    if words.push(String::from_str(alloc, word)?).is_err() {
        return Err(NoMem);
    }
    let mut source = MemSource::build(alloc, input, 100, reads)?;
    let mut sink = MemSink::build(alloc, 50, writes)?;
    let mut dialers = Vec::new(alloc);
    if dialers.push(dialer).is_err() {
        return Err(NoMem);
    }
    let finish = desk_main(alloc, words.as_slice(), &mut source, &mut sink, dialers);
    let text = Octets::build(alloc, sink.written())?;
    Ok(Outcome {
        status: finish.status,
        text,
    })
}

fn answer_to(alloc: Global, word: &str, input: &[u8]) -> Result<Outcome, NoMem> {
    call(alloc, word, input, &[], &[], InnerDialer::new())
}

const EXAMPLE: &[u8] =
    b"{\"peers\":[{\"host\":\"a.test\",\"port\":80,\"answers\":[{\"path\":\"/\",\"text\":\"ok\"}]}],\"channels\":[{\"calls\":[{\"call\":\"submit\",\"url\":\"http://a.test/\"}]}]}";

/// A page: a connection ahead of time, a style sheet and an image behind it.
const PAGE_LOAD: &[u8] =
    b"{\"peers\":[{\"host\":\"www.shop.test\",\"port\":443,\"secure\":true,\"proto\":\"h2\",\"names\":[\"*.shop.test\"],\"answers\":[{\"path\":\"*\",\"size\":3000}]}],\"channels\":[{\"calls\":[{\"call\":\"preconnect\",\"url\":\"https://www.shop.test/\",\"count\":1},{\"call\":\"submit\",\"url\":\"https://www.shop.test/a.css\",\"urgency\":1},{\"call\":\"submit\",\"url\":\"https://www.shop.test/b.png\",\"urgency\":6}]}]}";

/// A command, its input, the status and the text.
struct Row {
    word: &'static str,
    input: &'static [u8],
    status: u8,
    text: &'static [u8],
}

const ROWS: [Row; 9] = [
    Row {
        word: "check",
        input: PAGE_LOAD,
        status: 0,
        text: b"channels 1 calls 3 peers 1\n",
    },
    Row {
        word: "check",
        input: b"[]",
        status: 3,
        text: b"refused bad-value /\n",
    },
    Row {
        word: "check",
        input: b"{\"peers\":[1,1,1,1,1,1,1,1,1,1,1,1,1,1,1,1,1,1,1,1,1,1,1,1,1,1,1,1,1,1,1,1,1,1,1,1,1,1,1,1,1,1,1,1,1,1,1,1,1,1,1,1,1,1,1,1,1,1,1,1,1,1,1,1,1],\"channels\":[]}",
        status: 3,
        text: b"refused too-many /peers 65\n",
    },
    Row {
        word: "serial",
        input: b"{",
        status: 3,
        text: b"refused not-json\n",
    },
    Row {
        word: "serial",
        input: PAGE_LOAD,
        status: 3,
        text: b"refused unsupported /\n",
    },
    Row {
        word: "serial",
        input: b"{\"peers\":[{\"host\":\"a.test\",\"port\":81,\"answers\":[{\"path\":\"/\",\"text\":\"ok\"}]}],\"channels\":[{\"calls\":[{\"call\":\"submit\",\"url\":\"http://a.test/\"}]}]}",
        status: 8,
        text: b"unbuilt dial\n",
    },
    Row {
        word: "replay",
        input: EXAMPLE,
        status: 3,
        text: b"refused no-journal\n",
    },
    Row {
        word: "replay",
        input: b"{\"peers\":[],\"channels\":[]}\n--\npoolrun 1\n0 1 tock\n",
        status: 3,
        text: b"refused line 2\n",
    },
    Row {
        word: "replay",
        input: b"{\"peers\":[],\"channels\":[]}\n--\npoolrun 1\n0 1 network\n0 0 evict 1\nend 2\n",
        status: 1,
        text: b"illegal line 3\n",
    },
];

#[test]
fn what_is_not_run_has_its_line(rt: HostRuntime) -> Result<(), Fail> {
    for row in &ROWS {
        let outcome = answer_to(rt.alloc(), row.word, row.input)?;
        assert_eq!(rt; outcome.status, row.status);
        assert_eq!(rt; outcome.text.as_slice(), row.text);
    }
    Ok(())
}

/// Whether this is the journal of so many entries that are a history under the limits of the example.
fn is_legal(alloc: Global, journal: &[u8], line: &[u8]) -> Result<bool, NoMem> {
    let mut pair = Octets::build(alloc, EXAMPLE)?;
    pair.extend(alloc, b"\n--\n")?;
    pair.extend(alloc, journal)?;
    let outcome = answer_to(alloc, "replay", pair.as_slice())?;
    Ok(ends_with(&outcome, 0, line))
}

#[test]
fn a_failed_read_ends_with_4_and_a_failed_write_with_5(rt: HostRuntime) -> Result<(), Fail> {
    let alloc = rt.alloc();
    let whole = answer_to(alloc, "serial", EXAMPLE)?;
    assert!(rt; is_legal(alloc, whole.text.as_slice(), b"legal 10\n")?);
    let read = call(alloc, "serial", EXAMPLE, &[2], &[], InnerDialer::new())?;
    assert!(rt; ends_with(&read, 4, b""));
    let write = call(alloc, "serial", EXAMPLE, &[], &[3], InnerDialer::new())?;
    assert_eq!(rt; (write.status, write.text.len()), (5, 100));
    assert!(rt; whole.text.as_slice().starts_with(write.text.as_slice()));
    Ok(())
}

/// Exchange 1 moves and ends by the shutdown, exchange 2 is cancelled, and a third is refused.
const ENDS: &[u8] =
    b"poolrun 1\n0 1 submit https://top.test + 3 fore - plain GET http://a.test:80 / - - = accepted 1\n0 0 want 1 1 a.test:80 clear direct\n0 101 seek = dial 1 a.test:80 clear direct\n0 101 opened 1 0 clear h1 00000000000000000000000000000000 -\n0 0 assign 1 1 1 direct\n0 101 closed 1 0 end -\n0 0 want 1 2 a.test:80 clear direct\n0 1 submit https://top.test + 3 fore - plain GET http://b.test:80 / - - = accepted 2\n0 0 want 2 3 b.test:80 clear direct\n0 1 cancel 2 = cancelled\n0 999 shutdown = noted\n0 1 submit https://top.test + 3 fore - plain GET http://a.test:80 / - - = closed 11\nend 12\n";

const LIMITS: Config = Config {
    per_group: 6,
    total: 32,
    streams: 100,
    background: 2,
    last_stream: 2147483647,
    submissions: 5000,
};

#[test]
fn a_summary_counts_what_ended_without_an_answer(rt: HostRuntime) -> Result<(), Fail> {
    let alloc = rt.alloc();
    assert!(rt; is_legal(alloc, ENDS, b"legal 12\n")?);
    let Ok(history) = read_journal(alloc, ENDS) else {
        return Err(Fail::new("no journal"));
    };
    assert_eq!(rt;
        write_summary(alloc, &LIMITS, &history)?.as_slice(),
        b"submitted 2\nanswered 0\nfailed 1\ncancelled 1\nmoves 1\nconnections 3\nentries 12\n".as_slice()
    );
    Ok(())
}

/// Runs `serial` on the example over one link that plays these steps, of whose writes these fail.
fn serial_over(
    alloc: Global,
    steps: LinkSteps,
    proto: Proto,
    write_fails: CallNos,
) -> Result<Outcome, NoMem> {
    let identity = Identity {
        names: Names::new(),
        secure: false,
        proto,
        address: [0; 16],
    };
    let mut parts = ScriptLinks::new();
    parts.push(
        alloc,
        ScriptPart {
            identity,
            steps,
            write_fails,
        },
    )?;
    let dialer = MemDialer::build(alloc, parts, &[])?;
    call(alloc, "serial", EXAMPLE, &[], &[], dialer)
}

/// So many quiet reads, and then this step.
fn quiets(alloc: Global, n: u8, last: LinkStep) -> Result<LinkSteps, NoMem> {
    let mut steps = LinkSteps::new();
    for _ in 0..n {
        steps.push(alloc, LinkStep::Quiet)?;
    }
    steps.push(alloc, last)?;
    Ok(steps)
}

fn give(alloc: Global, octets: &[u8]) -> Result<LinkStep, NoMem> {
    Ok(LinkStep::Give(Octets::build(alloc, octets)?))
}

const ANSWER: &[u8] = b"HTTP/1.1 200 \r\ncontent-length: 2\r\n\r\nok";

/// The journal and the summary of the example, whose answer is read in round 7.
const ROUND_SEVEN: &[u8] =
    b"poolrun 1\n0 1 submit https://top.test + 3 fore - plain GET http://a.test:80 / - - = accepted 1\n0 0 want 1 1 a.test:80 clear direct\n0 101 seek = dial 1 a.test:80 clear direct\n0 101 opened 1 0 clear h1 00000000000000000000000000000000 -\n0 0 assign 1 1 1 direct\n10 101 orders 1 0 = start 1 1\n70 101 answered 1 32 1 keep 200 content-length:32 6f6b - none none\n100 999 shutdown = noted\n100 101 orders 1 32 = close\n100 101 closed 1 32 done -\nend 10\nsubmitted 1\nanswered 1\nfailed 0\ncancelled 0\nmoves 0\nconnections 1\nentries 10\n";

#[test]
fn an_answer_behind_six_quiet_reads_is_told_in_round_seven(rt: HostRuntime) -> Result<(), Fail> {
    let alloc = rt.alloc();
    let steps = quiets(alloc, 6, give(alloc, ANSWER)?)?;
    let outcome = serial_over(alloc, steps, Proto::H1, CallNos::new())?;
    assert!(rt; ends_with(&outcome, 0, ROUND_SEVEN));
    Ok(())
}

#[test]
fn each_course_that_cannot_be_told_has_its_word(rt: HostRuntime) -> Result<(), Fail> {
    let alloc = rt.alloc();
    let none = CallNos::new;
    let second = serial_over(alloc, LinkSteps::new(), Proto::H2, none())?;
    assert!(rt; ends_with(&second, 8, b"unbuilt identity\n"));
    let mut first = CallNos::new();
    first.push(alloc, 1)?;
    let write = serial_over(alloc, LinkSteps::new(), Proto::H1, first)?;
    assert!(rt; ends_with(&write, 8, b"unbuilt fault\n"));
    let end = serial_over(alloc, quiets(alloc, 2, LinkStep::End)?, Proto::H1, none())?;
    assert!(rt; ends_with(&end, 8, b"unbuilt end\n"));
    let quiet = serial_over(alloc, LinkSteps::new(), Proto::H1, none())?;
    assert!(rt; ends_with(&quiet, 8, b"unbuilt quiet\n"));
    let early = quiets(alloc, 0, give(alloc, ANSWER)?)?;
    let early = serial_over(alloc, early, Proto::H1, none())?;
    assert!(rt; ends_with(&early, 8, b"unbuilt octets\n"));
    Ok(())
}
