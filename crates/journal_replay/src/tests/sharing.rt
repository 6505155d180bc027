// Which exchanges share a connection (RFC 9113, section 9.1.1), what a 421 says (RFC 9110, section 15.5.20), and how many connections
// there are.

use super::*;

/// A group has two connections, and the third exchange waits until one of them is free.
const GROUP: &str =
    r#"0 1 submit https://top.test + 3 fore - plain GET http://a.test:80 / - - = accepted 1
0 0 want 1 1 a.test:80 clear direct
0 1 submit https://top.test + 3 fore - plain GET http://a.test:80 / - - = accepted 2
0 0 want 2 2 a.test:80 clear direct
0 1 submit https://top.test + 3 fore - plain GET http://a.test:80 / - - = accepted 3
! 0 0 want 3 3 a.test:80 clear direct
=
0 101 seek = dial 1 a.test:80 clear direct
0 101 opened 1 0 clear h1 00000000000000000000000000000000 -
! 0 0 assign 3 1 1 direct
0 0 assign 1 1 1 direct
0 101 seek = dial 2 a.test:80 clear direct
0 101 opened 2 0 clear h1 00000000000000000000000000000000 -
! 0 0 assign 3 2 1 direct
0 0 assign 2 2 1 direct
0 101 orders 1 0 = start 1 1
0 101 answered 1 0 1 keep 200 - - - none none
! 0 0 assign 3 1 1 direct
0 0 assign 3 1 2 direct
="#;

/// Credentials and sites don't share a connection.
const APART: &str =
    r#"0 1 submit https://top.test + 3 fore - plain GET http://a.test:80 / - - = accepted 1
0 0 want 1 1 a.test:80 clear direct
0 101 seek = dial 1 a.test:80 clear direct
0 101 opened 1 0 clear h1 00000000000000000000000000000000 -
0 0 assign 1 1 1 direct
0 101 orders 1 0 = start 1 1
0 101 answered 1 0 1 keep 200 - - - none none
0 1 submit https://top.test - 3 fore - plain GET http://a.test:80 / - - = accepted 2
! 0 0 assign 2 1 2 direct
0 0 want 2 2 a.test:80 clear direct
0 1 submit https://other.test + 3 fore - plain GET http://a.test:80 / - - = accepted 3
! 0 0 assign 3 1 2 direct
0 0 want 3 3 a.test:80 clear direct
0 1 submit https://top.test + 3 fore - plain GET http://a.test:80 / - - = accepted 4
0 0 assign 4 1 2 direct
="#;

/// Connection 1 to a.test shows b.test too, and is idle.
const IDLE: &str =
    r#"0 1 submit https://top.test + 3 fore - plain GET https://a.test:443 / - - = accepted 1
0 0 want 1 1 a.test:443 secure direct
0 101 seek = dial 1 a.test:443 secure direct
0 101 opened 1 0 secure h2 07070707070707070707070707070707 a.test,b.test
0 0 assign 1 1 1 direct
0 101 orders 1 0 = start 1 1
0 101 answered 1 0 1 keep 200 - - - none none"#;

/// An exchange of b.test is misdirected on it, goes to its origin itself, and has its answer there.
const MISDIRECTED: &str =
    r#"0 1 resolved https://top.test b.test 07070707070707070707070707070707 = noted
0 1 submit https://top.test + 3 fore - plain GET https://b.test:443 / - - = accepted 2
! 0 0 want 2 2 b.test:443 secure direct
! 0 0 assign 2 1 3 direct
0 0 assign 2 1 3 coalesced
0 101 orders 1 0 = start 2 3
0 101 answered 1 0 3 keep 421 - - - none none
! 0 0 assign 2 1 5 coalesced
! 0 0 want 2 2 a.test:443 secure direct
0 0 want 2 2 b.test:443 secure direct
0 101 seek = dial 2 b.test:443 secure direct
0 101 opened 2 0 secure h2 07070707070707070707070707070707 b.test
0 0 assign 2 2 1 direct
0 101 orders 2 0 = start 2 1
0 101 answered 2 0 1 keep 421 - - - none none
! 0 0 assign 2 2 3 direct
! 0 1 cancel 2 = cancelled
0 1 cancel 2 = ended
="#;

/// The host has another address.
const OTHER_ADDRESS: &str =
    r#"0 1 resolved https://top.test b.test 08080808080808080808080808080808 = noted
0 1 submit https://top.test + 3 fore - plain GET https://b.test:443 / - - = accepted 2
! 0 0 assign 2 1 2 coalesced
! 0 0 assign 2 1 3 coalesced
0 0 want 2 2 b.test:443 secure direct
="#;

/// The port is another.
const OTHER_PORT: &str =
    r#"0 1 resolved https://top.test b.test 07070707070707070707070707070707 = noted
0 1 submit https://top.test + 3 fore - plain GET https://b.test:8443 / - - = accepted 2
! 0 0 assign 2 1 2 coalesced
! 0 0 assign 2 1 3 coalesced
0 0 want 2 2 b.test:8443 secure direct
="#;

/// The exchange goes without credentials.
const NO_CREDENTIALS: &str =
    r#"0 1 resolved https://top.test b.test 07070707070707070707070707070707 = noted
0 1 submit https://top.test - 3 fore - plain GET https://b.test:443 / - - = accepted 2
! 0 0 assign 2 1 2 coalesced
! 0 0 assign 2 1 3 coalesced
0 0 want 2 2 b.test:443 secure direct
="#;

/// The exchange is of another site.
const OTHER_SITE: &str =
    r#"0 1 resolved https://top.test b.test 07070707070707070707070707070707 = noted
0 1 submit https://other.test + 3 fore - plain GET https://b.test:443 / - - = accepted 2
! 0 0 assign 2 1 2 coalesced
! 0 0 assign 2 1 3 coalesced
0 0 want 2 2 b.test:443 secure direct
="#;

/// The connection is HTTP/1.1.
const FIRST_PROTOCOL: &str =
    r#"0 1 submit https://top.test + 3 fore - plain GET https://a.test:443 / - - = accepted 1
0 0 want 1 1 a.test:443 secure direct
0 101 seek = dial 1 a.test:443 secure direct
0 101 opened 1 0 secure h1 07070707070707070707070707070707 a.test,b.test
0 0 assign 1 1 1 direct
0 101 orders 1 0 = start 1 1
0 101 answered 1 0 1 keep 200 - - - none none
0 1 resolved https://top.test b.test 07070707070707070707070707070707 = noted
0 1 submit https://top.test + 3 fore - plain GET https://b.test:443 / - - = accepted 2
! 0 0 assign 2 1 2 coalesced
! 0 0 assign 2 1 3 coalesced
0 0 want 2 2 b.test:443 secure direct
="#;

/// A wildcard stands for one label.
const TWO_LABELS: &str =
    r#"0 1 submit https://top.test + 3 fore - plain GET https://a.test:443 / - - = accepted 1
0 0 want 1 1 a.test:443 secure direct
0 101 seek = dial 1 a.test:443 secure direct
0 101 opened 1 0 secure h2 07070707070707070707070707070707 a.test,*.test
0 0 assign 1 1 1 direct
0 101 orders 1 0 = start 1 1
0 101 answered 1 0 1 keep 200 - - - none none
0 1 resolved https://top.test x.b.test 07070707070707070707070707070707 = noted
0 1 submit https://top.test + 3 fore - plain GET https://x.b.test:443 / - - = accepted 2
! 0 0 assign 2 1 2 coalesced
! 0 0 assign 2 1 3 coalesced
0 0 want 2 2 x.b.test:443 secure direct
="#;

pub(super) const COURSES: [Courses; 4] = [
    Courses {
        config: Config {
            per_group: 2,
            ..LIMITS
        },
        front: "",
        behind: &[GROUP],
    },
    Courses {
        config: LIMITS,
        front: "",
        behind: &[APART],
    },
    Courses {
        config: LIMITS,
        front: IDLE,
        behind: &[
            MISDIRECTED,
            OTHER_ADDRESS,
            OTHER_PORT,
            NO_CREDENTIALS,
            OTHER_SITE,
        ],
    },
    Courses {
        config: LIMITS,
        front: "",
        behind: &[FIRST_PROTOCOL, TWO_LABELS],
    },
];
