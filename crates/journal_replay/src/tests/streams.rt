// Streams of HTTP/2 connections: who gets the next one, what becomes of one that the peer didn't serve, and what is sent again
// (RFC 9110, section 9.2.2; RFC 9113, sections 6.8 and 8.7).

use super::*;

/// Connection 1 is HTTP/2, and was opened for no exchange.
const OPENED: &str = r#"! 0 1 preconnect https://top.test + https://a.test:443 1 = opening 2
0 1 preconnect https://top.test + https://a.test:443 1 = opening 1
0 101 seek = dial 1 a.test:443 secure direct
0 101 opened 1 0 secure h2 07070707070707070707070707070707 a.test"#;

/// The most urgent gets the next stream, and of these the first.
const URGENT: &str = r#"0 101 limit 1 0 1
0 1 submit https://top.test + 3 fore - plain GET https://a.test:443 / - - = accepted 1
0 0 assign 1 1 1 direct
0 1 submit https://top.test + 5 fore - plain GET https://a.test:443 / - - = accepted 2
! 0 0 assign 2 1 3 direct
! 0 0 want 2 2 a.test:443 secure direct
0 1 submit https://top.test + 3 fore - plain GET https://a.test:443 / - - = accepted 3
0 1 submit https://top.test + 3 fore - plain GET https://a.test:443 / - - = accepted 4
0 101 orders 1 0 = start 1 1
0 101 answered 1 0 1 keep 200 - - - none none
! 0 0 assign 2 1 3 direct
! 0 0 assign 4 1 3 direct
0 0 assign 3 1 3 direct
0 101 orders 1 0 = start 3 3
0 101 answered 1 0 3 keep 200 - - - none none
0 0 assign 4 1 5 direct
0 101 orders 1 0 = start 4 5
0 101 answered 1 0 5 keep 200 - - - none none
! 0 0 assign 2 1 6 direct
0 0 assign 2 1 7 direct
="#;

/// Streams above the last served one move to a new connection.
const GOAWAY: &str =
    r#"0 1 submit https://top.test + 3 fore - plain POST https://a.test:443 / - - = accepted 1
0 0 assign 1 1 1 direct
0 101 orders 1 0 = start 1 1
0 1 submit https://top.test + 3 fore - plain POST https://a.test:443 / - - = accepted 2
0 0 assign 2 1 3 direct
0 101 orders 1 0 = start 2 3
0 1 submit https://top.test + 3 fore - plain POST https://a.test:443 / - - = accepted 3
0 0 assign 3 1 5 direct
0 101 orders 1 0 = start 3 5
0 101 goaway 1 0 3
! 0 0 assign 3 1 7 direct
! 0 0 want 2 2 a.test:443 secure direct
0 0 want 3 2 a.test:443 secure direct
0 101 seek = dial 2 a.test:443 secure direct
0 101 opened 2 0 secure h2 07070707070707070707070707070707 a.test
0 0 assign 3 2 1 direct
! 0 101 orders 1 0 = close
0 101 answered 1 0 1 keep 200 - - - none none
! 0 101 orders 1 0 = close
0 101 answered 1 0 3 keep 200 - - - none none
0 101 orders 1 0 = close
="#;

/// A start that isn't handed yet when the peer goes away is taken back: it is handed on the new connection alone.
const PENDING: &str =
    r#"0 1 submit https://top.test + 3 fore - plain POST https://a.test:443 / - - = accepted 1
0 0 assign 1 1 1 direct
0 101 orders 1 0 = start 1 1
0 1 submit https://top.test + 3 fore - plain POST https://a.test:443 / - - = accepted 2
0 0 assign 2 1 3 direct
0 101 goaway 1 0 1
0 0 want 2 2 a.test:443 secure direct
! 0 101 orders 1 0 = start 2 3
0 101 seek = dial 2 a.test:443 secure direct
0 101 opened 2 0 secure h2 07070707070707070707070707070707 a.test
0 0 assign 2 2 1 direct
! 0 101 orders 1 0 = start 2 3
0 101 orders 2 0 = start 2 1
="#;

/// An exchange moves five times, and then ends.
const FIVE_MOVES: &str =
    r#"0 1 submit https://top.test + 3 fore - plain GET https://a.test:443 / - - = accepted 1
0 0 assign 1 1 1 direct
0 101 orders 1 0 = start 1 1
0 101 refused 1 0 1
! 0 0 assign 1 1 1 direct
0 0 assign 1 1 3 direct
0 101 orders 1 0 = start 1 3
0 101 refused 1 0 3
! 0 0 assign 1 1 3 direct
0 0 assign 1 1 5 direct
0 101 orders 1 0 = start 1 5
0 101 refused 1 0 5
! 0 0 assign 1 1 5 direct
0 0 assign 1 1 7 direct
0 101 orders 1 0 = start 1 7
0 101 refused 1 0 7
! 0 0 assign 1 1 7 direct
0 0 assign 1 1 9 direct
0 101 orders 1 0 = start 1 9
0 101 refused 1 0 9
! 0 0 assign 1 1 9 direct
0 0 assign 1 1 11 direct
0 101 orders 1 0 = start 1 11
! 0 101 refused 1 0 13
0 101 refused 1 0 11
! 0 0 assign 1 1 13 direct
! 0 1 cancel 1 = cancelled
0 1 cancel 1 = ended
="#;

/// A POST has a connection of HTTP/1.1.
const POST: &str =
    r#"0 1 submit https://top.test + 3 fore - plain POST http://a.test:80 / - - = accepted 1
0 0 want 1 1 a.test:80 clear direct
0 101 seek = dial 1 a.test:80 clear direct
0 101 opened 1 0 clear h1 00000000000000000000000000000000 -
0 0 assign 1 1 1 direct"#;

/// It moves where it wasn't sent.
const UNSENT: &str = r#"0 101 closed 1 0 end -
! 0 1 cancel 1 = ended
0 0 want 1 2 a.test:80 clear direct
="#;

/// It ends where it was.
const SENT: &str = r#"0 101 orders 1 0 = start 1 1
0 101 closed 1 0 end -
! 0 0 want 1 2 a.test:80 clear direct
! 0 1 cancel 1 = cancelled
0 1 cancel 1 = ended
="#;

/// So has a GET, which is sent.
const GET: &str =
    r#"0 1 submit https://top.test + 3 fore - plain GET http://a.test:80 / - - = accepted 1
0 0 want 1 1 a.test:80 clear direct
0 101 seek = dial 1 a.test:80 clear direct
0 101 opened 1 0 clear h1 00000000000000000000000000000000 -
0 0 assign 1 1 1 direct
0 101 orders 1 0 = start 1 1"#;

/// Where nothing was heard it is sent again, once.
const UNHEARD: &str = r#"0 101 closed 1 0 end -
0 0 want 1 2 a.test:80 clear direct
0 101 seek = dial 2 a.test:80 clear direct
0 101 opened 2 0 clear h1 00000000000000000000000000000000 -
0 0 assign 1 2 1 direct
0 101 orders 2 0 = start 1 1
0 101 closed 2 0 end -
! 0 0 want 1 3 a.test:80 clear direct
! 0 1 cancel 1 = cancelled
0 1 cancel 1 = ended
="#;

/// Where something was heard it isn't.
const HEARD: &str = r#"0 101 closed 1 0 end 1
! 0 0 want 1 2 a.test:80 clear direct
! 0 1 cancel 1 = cancelled
0 1 cancel 1 = ended
="#;

/// Where its answer leaves the connection open, the next one takes it.
const KEPT: &str = r#"0 101 answered 1 64 1 keep 200 - - - none none
0 1 submit https://top.test + 3 fore - plain GET http://a.test:80 / - - = accepted 2
! 0 0 assign 2 1 1 direct
0 0 assign 2 1 2 direct
! 0 101 orders 1 64 = start 2 1
0 101 orders 1 64 = start 2 2
="#;

pub(super) const COURSES: [Courses; 3] = [
    Courses {
        config: LIMITS,
        front: OPENED,
        behind: &[URGENT, GOAWAY, PENDING, FIVE_MOVES],
    },
    Courses {
        config: LIMITS,
        front: POST,
        behind: &[UNSENT, SENT],
    },
    Courses {
        config: LIMITS,
        front: GET,
        behind: &[UNHEARD, HEARD, KEPT],
    },
];
