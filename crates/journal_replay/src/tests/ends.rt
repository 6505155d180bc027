// How exchanges end by their callers and by their deadlines, what makes room, and what is refused.

use super::*;

/// Caller 1 cancels an exchange that waits. Another caller doesn't know it.
const WAITING: &str =
    r#"0 1 submit https://top.test + 3 fore - plain GET http://a.test:80 / - - = accepted 1
0 0 want 1 1 a.test:80 clear direct
! 0 1 cancel 1 = ended
0 2 cancel 1 = unknown
0 1 reprioritise 1 0 = changed
0 2 reprioritise 1 0 = unknown
! 0 2 cancel 1 = cancelled
0 1 cancel 1 = cancelled
! 0 1 cancel 1 = cancelled
! 0 1 reprioritise 1 0 = changed
0 1 cancel 1 = ended
0 1 reprioritise 1 0 = ended
="#;

/// One that has a lease: its start isn't handed any more.
const LEASED: &str =
    r#"0 1 submit https://top.test + 3 fore - plain GET http://a.test:80 / - - = accepted 1
0 0 want 1 1 a.test:80 clear direct
0 101 seek = dial 1 a.test:80 clear direct
0 101 opened 1 0 clear h1 00000000000000000000000000000000 -
0 0 assign 1 1 1 direct
0 1 cancel 1 = cancelled
! 0 101 orders 1 0 = start 1 1
="#;

/// One that was sent: its HTTP/1.1 connection closes.
const STARTED: &str =
    r#"0 1 submit https://top.test + 3 fore - plain GET http://a.test:80 / - - = accepted 1
0 0 want 1 1 a.test:80 clear direct
0 101 seek = dial 1 a.test:80 clear direct
0 101 opened 1 0 clear h1 00000000000000000000000000000000 -
0 0 assign 1 1 1 direct
0 101 orders 1 0 = start 1 1
0 1 cancel 1 = cancelled
=
0 101 orders 1 0 = close
="#;

/// One that was sent on HTTP/2: its stream is reset.
const STREAM: &str =
    r#"0 1 submit https://top.test + 3 fore - plain GET https://a.test:443 / - - = accepted 1
0 0 want 1 1 a.test:443 secure direct
0 101 seek = dial 1 a.test:443 secure direct
0 101 opened 1 0 secure h2 07070707070707070707070707070707 a.test
0 0 assign 1 1 1 direct
0 101 orders 1 0 = start 1 1
0 1 cancel 1 = cancelled
! 0 101 orders 1 0 = close
0 101 orders 1 0 = reset 1
! 0 101 stream-closed 1 0 3
0 101 stream-closed 1 0 1
="#;

/// A deadline that is reached already.
const REACHED: &str =
    r#"50 1 submit https://top.test + 3 fore 50 plain GET http://a.test:80 / - - = accepted 1
! 50 0 want 1 1 a.test:80 clear direct
50 0 expire 1
50 1 cancel 1 = ended
="#;

/// A deadline is reached at its moment.
const DEADLINE: &str =
    r#"0 1 submit https://top.test + 3 fore 50 plain GET http://a.test:80 / - - = accepted 1
! 0 0 expire 1
0 0 want 1 1 a.test:80 clear direct
! 49 1 tick
50 1 tick
! 50 0 expire 2
! 49 0 expire 1
50 0 expire 1
! 50 1 tick
="#;

/// Two connections are idle, and more there may not be: the one that has been idle for longest makes room.
const EVICTED: &str =
    r#"0 1 submit https://top.test + 3 fore - plain GET http://a.test:80 / - - = accepted 1
0 0 want 1 1 a.test:80 clear direct
0 101 seek = dial 1 a.test:80 clear direct
0 101 opened 1 0 clear h1 00000000000000000000000000000000 -
0 0 assign 1 1 1 direct
0 101 orders 1 0 = start 1 1
0 101 answered 1 0 1 keep 200 - - - none none
0 1 submit https://top.test + 3 fore - plain GET http://b.test:80 / - - = accepted 2
0 0 want 2 2 b.test:80 clear direct
0 101 seek = dial 2 b.test:80 clear direct
0 101 opened 2 0 clear h1 00000000000000000000000000000000 -
0 0 assign 2 2 1 direct
0 101 orders 2 0 = start 2 1
0 101 answered 2 0 1 keep 200 - - - none none
0 1 submit https://top.test + 3 fore - plain GET http://c.test:80 / - - = accepted 3
! 0 0 want 3 3 c.test:80 clear direct
! 0 0 evict 2
0 0 evict 1
! 0 0 evict 2
0 101 orders 1 0 = close
! 0 0 want 3 3 c.test:80 clear direct
0 101 closed 1 0 done -
0 0 want 3 3 c.test:80 clear direct
="#;

/// What passes a limit is refused with its number.
const FULL: &str = r#"! 0 1 preconnect https://top.test + http://a.test:80 3 = opening 3
0 1 preconnect https://top.test + http://a.test:80 3 = opening 2
! 0 1 preconnect https://top.test + http://a.test:80 3 = no-room 2 1
0 1 preconnect https://top.test + http://a.test:80 3 = no-room 2 2
0 1 submit https://top.test + 3 fore - plain GET http://b.test:80 / - - = accepted 1
0 0 want 1 3 b.test:80 clear direct
! 0 1 submit https://top.test + 3 fore - plain GET http://b.test:80 / - - = accepted 2
! 0 1 submit https://top.test + 3 fore - plain GET http://b.test:80 / - - = full 2
0 1 submit https://top.test + 3 fore - plain GET http://b.test:80 / - - = full 1
0 1 resolved https://top.test a.test 07070707070707070707070707070707,07070707070707070707070707070707,07070707070707070707070707070707,07070707070707070707070707070707,07070707070707070707070707070707,07070707070707070707070707070707,07070707070707070707070707070707,07070707070707070707070707070707,07070707070707070707070707070707,07070707070707070707070707070707,07070707070707070707070707070707,07070707070707070707070707070707,07070707070707070707070707070707,07070707070707070707070707070707,07070707070707070707070707070707,07070707070707070707070707070707 = noted
! 0 1 resolved https://top.test a.test 07070707070707070707070707070707,07070707070707070707070707070707,07070707070707070707070707070707,07070707070707070707070707070707,07070707070707070707070707070707,07070707070707070707070707070707,07070707070707070707070707070707,07070707070707070707070707070707,07070707070707070707070707070707,07070707070707070707070707070707,07070707070707070707070707070707,07070707070707070707070707070707,07070707070707070707070707070707,07070707070707070707070707070707,07070707070707070707070707070707,07070707070707070707070707070707,07070707070707070707070707070707 = noted
0 1 resolved https://top.test a.test 07070707070707070707070707070707,07070707070707070707070707070707,07070707070707070707070707070707,07070707070707070707070707070707,07070707070707070707070707070707,07070707070707070707070707070707,07070707070707070707070707070707,07070707070707070707070707070707,07070707070707070707070707070707,07070707070707070707070707070707,07070707070707070707070707070707,07070707070707070707070707070707,07070707070707070707070707070707,07070707070707070707070707070707,07070707070707070707070707070707,07070707070707070707070707070707,07070707070707070707070707070707 = too-many 17
="#;

/// An exchange in the background waits for the others.
const BACKGROUND: &str =
    r#"0 1 submit https://top.test + 3 fore - plain GET http://a.test:80 / - - = accepted 1
0 0 want 1 1 a.test:80 clear direct
0 1 submit https://top.test + 3 back - plain GET http://b.test:80 / - - = accepted 2
! 0 0 want 2 2 b.test:80 clear direct
=
0 1 cancel 1 = cancelled
0 0 want 2 2 b.test:80 clear direct
="#;

pub(super) const COURSES: [Courses; 4] = [
    Courses {
        config: LIMITS,
        front: "",
        behind: &[WAITING, LEASED, STARTED, STREAM, REACHED, DEADLINE],
    },
    Courses {
        config: Config { total: 2, ..LIMITS },
        front: "",
        behind: &[EVICTED],
    },
    Courses {
        config: Config {
            per_group: 2,
            submissions: 1,
            ..LIMITS
        },
        front: "",
        behind: &[FULL],
    },
    Courses {
        config: Config {
            background: 0,
            ..LIMITS
        },
        front: "",
        behind: &[BACKGROUND],
    },
];
