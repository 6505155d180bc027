// One GET over one connection, and the ends of a pool.

use super::*;

/// From the submission to the end of the connection. Before each entry, others are tried in its place.
const ONE_GET: &str = r#"=
! 0 1 submit https://top.test + 3 fore - plain GET http://a.test:80 / - - = accepted 2
! 0 0 submit https://top.test + 3 fore - plain GET http://a.test:80 / - - = accepted 1
0 1 submit https://top.test + 3 fore - plain GET http://a.test:80 / - - = accepted 1
! 0 0 want 1 2 a.test:80 clear direct
! 0 0 want 2 1 a.test:80 clear direct
! 0 101 want 1 1 a.test:80 clear direct
! 1 0 want 1 1 a.test:80 clear direct
0 0 want 1 1 a.test:80 clear direct
=
! 0 101 seek = dial 2 a.test:80 clear direct
0 101 seek = dial 1 a.test:80 clear direct
! 0 102 opened 1 0 clear h1 00000000000000000000000000000000 -
! 0 101 opened 2 0 clear h1 00000000000000000000000000000000 -
0 101 opened 1 0 clear h1 00000000000000000000000000000000 -
! 0 0 assign 1 1 3 direct
! 0 0 assign 1 2 1 direct
! 0 0 assign 1 1 1 coalesced
! 7 0 assign 1 1 1 direct
0 0 assign 1 1 1 direct
=
! 10 102 orders 1 0 = start 1 1
! 10 101 orders 1 0 = start 1 2
10 101 orders 1 0 = start 1 1
! 20 101 answered 1 32 2 keep 200 - - - none none
20 101 answered 1 32 1 keep 200 - - - none none
! 50 999 shutdown = closed 8
50 999 shutdown = noted
! 50 101 orders 1 31 = close
! 50 101 orders 1 32 = reset 1
50 101 orders 1 32 = close
! 50 101 closed 1 31 done -
! 50 101 closed 1 32 dial -
50 101 closed 1 32 done -
="#;

/// After a shutdown its place is told.
const SHUTDOWN: &str = r#"=
! 0 101 tick
! 0 999 shutdown = closed 1
0 1 network
0 999 shutdown = noted
! 0 999 shutdown = noted
! 0 1 submit https://top.test + 3 fore - plain GET http://a.test:80 / - - = accepted 1
! 0 1 submit https://top.test + 3 fore - plain GET http://a.test:80 / - - = closed 1
0 1 submit https://top.test + 3 fore - plain GET http://a.test:80 / - - = closed 2
! 0 1 preconnect https://top.test + http://a.test:80 1 = opening 1
0 1 preconnect https://top.test + http://a.test:80 1 = closed 2
0 1 resolved https://top.test a.test 07070707070707070707070707070707 = closed 2
0 999 shutdown = closed 2
="#;

pub(super) const COURSES: [Courses; 1] = [Courses {
    config: LIMITS,
    front: "",
    behind: &[ONE_GET, SHUTDOWN],
}];
