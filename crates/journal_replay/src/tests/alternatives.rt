// Alternatives that break and come back (RFC 7838), those of http origins (RFC 8164), and dials of origins themselves.

use super::*;

/// An https origin has said that it has an alternative, and exchange 2 wants a connection to it at the moment 100.
const SECURE: &str =
    r#"0 1 submit https://top.test + 3 fore - plain GET https://a.test:443 / - - = accepted 1
0 0 want 1 1 a.test:443 secure direct
0 101 seek = dial 1 a.test:443 secure direct
0 101 opened 1 0 secure h2 07070707070707070707070707070707 a.test
0 0 assign 1 1 1 direct
0 101 orders 1 0 = start 1 1
0 101 answered 1 0 1 last 200 - - - set h2/alt.test/8443/1000000/lose none
0 101 orders 1 0 = close
0 101 closed 1 0 done -
100 1 submit https://top.test + 3 fore - plain GET https://a.test:443 / - - = accepted 2
! 100 0 want 2 2 a.test:443 secure direct
100 0 want 2 2 alt.test:8443 secure h2
100 101 seek = dial 2 alt.test:8443 secure h2"#;

/// The dial fails, so that the alternative is broken for five minutes.
const BROKEN: &str = r#"100 101 closed 2 0 dial -
! 100 0 want 2 3 alt.test:8443 secure h2
100 0 want 2 3 a.test:443 secure direct
100 1 cancel 2 = cancelled
=
300099 1 submit https://top.test - 3 fore - plain GET https://a.test:443 / - - = accepted 3
! 300099 0 want 3 4 alt.test:8443 secure h2
300099 0 want 3 4 a.test:443 secure direct
="#;

/// Then it is used again.
const MENDED: &str = r#"100 101 closed 2 0 dial -
! 100 0 want 2 3 alt.test:8443 secure h2
100 0 want 2 3 a.test:443 secure direct
100 1 cancel 2 = cancelled
=
300100 1 submit https://top.test - 3 fore - plain GET https://a.test:443 / - - = accepted 3
! 300100 0 want 3 4 a.test:443 secure direct
300100 0 want 3 4 alt.test:8443 secure h2
="#;

/// At its expiry it is none any more.
const EXPIRED: &str = r#"100 101 closed 2 0 dial -
! 100 0 want 2 3 alt.test:8443 secure h2
100 0 want 2 3 a.test:443 secure direct
100 1 cancel 2 = cancelled
=
1000000 1 submit https://top.test - 3 fore - plain GET https://a.test:443 / - - = accepted 3
! 1000000 0 want 3 4 alt.test:8443 secure h2
1000000 0 want 3 4 a.test:443 secure direct
="#;

/// A connection that shows another name breaks it too.
const WRONG_NAME: &str = r#"100 101 opened 2 0 secure h2 07070707070707070707070707070707 other.test
! 100 0 assign 2 2 1 alternative
! 100 0 want 2 3 alt.test:8443 secure h2
100 0 want 2 3 a.test:443 secure direct
100 1 cancel 2 = cancelled
=
300099 1 submit https://top.test - 3 fore - plain GET https://a.test:443 / - - = accepted 3
! 300099 0 want 3 4 alt.test:8443 secure h2
300099 0 want 3 4 a.test:443 secure direct
="#;

/// An exchange ends with the connection to its origin that shows another name.
const NO_NAME: &str =
    r#"0 1 submit https://top.test + 3 fore - plain GET https://a.test:443 / - - = accepted 1
0 0 want 1 1 a.test:443 secure direct
0 101 seek = dial 1 a.test:443 secure direct
0 101 opened 1 0 secure h2 07070707070707070707070707070707 other.test
! 0 0 assign 1 1 1 direct
! 0 0 want 1 2 a.test:443 secure direct
! 0 1 cancel 1 = cancelled
0 1 cancel 1 = ended
=
0 101 orders 1 0 = close
="#;

/// It ends with the dial of its origin that fails.
const NO_DIAL: &str =
    r#"0 1 submit https://top.test + 3 fore - plain GET https://a.test:443 / - - = accepted 1
0 0 want 1 1 a.test:443 secure direct
0 101 seek = dial 1 a.test:443 secure direct
0 101 closed 1 0 dial -
! 0 0 want 1 2 a.test:443 secure direct
! 0 1 cancel 1 = cancelled
0 1 cancel 1 = ended
="#;

/// A probe without an alternative lapses. It asks for the path of RFC 8164, section 2.3, alone.
const LAPSE: &str =
    r#"! 0 1 submit https://top.test + 3 fore - probe GET http://a.test:80 / - - = accepted 1
0 1 submit https://top.test + 3 fore - probe GET http://a.test:80 / - - = bad-probe
! 0 1 submit https://top.test + 3 fore - probe GET http://a.test:80 /.well-known/http-opportunistic - - = bad-probe
0 1 submit https://top.test + 3 fore - probe GET http://a.test:80 /.well-known/http-opportunistic - - = accepted 1
! 0 0 want 1 1 a.test:80 clear direct
0 0 lapse 1
0 1 cancel 1 = ended
="#;

/// An http origin has said that it has an alternative.
const PLAIN: &str =
    r#"0 1 submit https://top.test + 3 fore - plain GET http://a.test:80 / - - = accepted 1
0 0 want 1 1 a.test:80 clear direct
0 101 seek = dial 1 a.test:80 clear direct
0 101 opened 1 0 clear h1 00000000000000000000000000000000 -
0 0 assign 1 1 1 direct
0 101 orders 1 0 = start 1 1
0 101 answered 1 0 1 last 200 - - - set h2/alt.test/8443/1000000/lose none
0 101 orders 1 0 = close
0 101 closed 1 0 done -"#;

/// No exchange but a probe goes over it.
const UNPROVEN: &str =
    r#"0 1 submit https://top.test + 3 fore - plain GET http://a.test:80 / - - = accepted 2
! 0 0 want 2 2 alt.test:8443 secure h2
0 0 want 2 2 a.test:80 clear direct
="#;

/// A probe has proven it until the moment 500.
const PROVEN: &str =
    r#"0 1 submit https://top.test + 3 fore - probe GET http://a.test:80 /.well-known/http-opportunistic - - = accepted 2
! 0 0 lapse 2
! 0 0 want 2 2 a.test:80 clear direct
0 0 want 2 2 alt.test:8443 secure h2
0 101 seek = dial 2 alt.test:8443 secure h2
0 101 opened 2 0 secure h2 07070707070707070707070707070707 a.test
0 0 assign 2 2 1 alternative
0 101 orders 2 0 = start 2 1
0 101 answered 2 0 1 keep 200 - - - none until 500
499 1 submit https://top.test + 3 fore - plain GET http://a.test:80 / - - = accepted 3
499 0 assign 3 2 3 alternative
500 1 submit https://top.test + 3 fore - plain GET http://a.test:80 / - - = accepted 4
! 500 0 assign 4 2 5 alternative
500 0 want 4 3 a.test:80 clear direct
="#;

pub(super) const COURSES: [Courses; 3] = [
    Courses {
        config: LIMITS,
        front: SECURE,
        behind: &[BROKEN, MENDED, EXPIRED, WRONG_NAME],
    },
    Courses {
        config: LIMITS,
        front: "",
        behind: &[NO_NAME, NO_DIAL, LAPSE],
    },
    Courses {
        config: LIMITS,
        front: PLAIN,
        behind: &[UNPROVEN, PROVEN],
    },
];
