use crate::talk::play;

// Cases, each behind what it shows.
const RANGES: &str = "\
# no byte is read from 0 on
read 0 0
  asks 1 f5 to read 0+1
# up to the end of a file
read 16515072 262144
  asks 1 f5 to read 16515072+262144
# past it
read 16515073 262144
  badrange
# too many bytes
read 0 262145
  badrange
# another call is pending, which comes before the range
read 0 4
  asks 1 f5 to read 0+4
read 0 4
  busy
write 0 x
  busy
read 16777216 1
  busy
grant 1 7 13 0 24 read
  reads d10 0+4 7.1
write 0 x7a
  busy
give 10 7 1 x61626364
  ok 61626364
read 16777216 1
  badrange
";

// Of a client whose next request has number 4294967280.
const LAST: &str = "\
# 16 numbers are left, its own first one among them
read 0 4
  asks 4294967280 f5 to read 0+4
deny 4294967280 2 0
  nofile
next
  4294967281
read 0 4
  slotspent
";

// Of one whose next request has the number behind that.
const SPENT: &str = "\
# 15 are left
read 0 4
  slotspent
write 0 x
  slotspent
# the range comes first
read 16777216 1
  badrange
";

#[test]
fn a_pending_call_or_a_bad_range_refuses_a_call(rt: HostRuntime) {
    play(&rt, rt.alloc(), 1, RANGES);
}

#[test]
fn numbers_of_requests_run_out(rt: HostRuntime) {
    play(&rt, rt.alloc(), 4_294_967_280, LAST);
}

#[test]
fn a_call_is_refused_where_they_ran_out(rt: HostRuntime) {
    play(&rt, rt.alloc(), 4_294_967_281, SPENT);
}
