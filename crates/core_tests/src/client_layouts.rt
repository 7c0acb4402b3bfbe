use crate::talk::play;

// Cases, each behind what it shows.
const CASES: &str = "\
# told to ask again twice, and the third time no more; late answers to former requests are not taken
read 0 4
  asks 1 f5 to read 0+4
deny 1 10058 4
  asks 2 f5 to read 0+4
deny 1 10058 4
grant 1 7 13 0 24 read
deny 2 10061 1
  asks 3 f5 to read 0+4
deny 3 10058 16
deny 3 10058 15
  held 15
read 0 4
  asks 4 f5 to read 0+4
# told so three times for one client
read 0 4
  asks 1 f5 to read 0+4
deny 1 10058 4
  asks 2 f5 to read 0+4
deny 2 10058 4
  asks 3 f5 to read 0+4
deny 3 10058 4
  held 4
# the same for a job that waits
write 0 x7a
  asks 1 f5 to write 0+1
deny 1 10061 0
  asks 2 f5 to write 0+1
deny 2 10058 1
  asks 3 f5 to write 0+1
deny 3 10061 2
  fencing 2
# after two such answers a layout is taken
read 0 4
  asks 1 f5 to read 0+4
deny 1 10058 4
  asks 2 f5 to read 0+4
deny 2 10061 1
  asks 3 f5 to read 0+4
grant 3 7 13 0 24 read
  reads d10 0+4 7.1
give 10 7 1 x61626364
  ok 61626364
# no file
read 0 4
  asks 1 f5 to read 0+4
deny 1 2 0
  nofile
next
  2
awaits
  nothing
# a component that is missing, of which no byte is wanted
file 3 4 0 0 0 1 hh-
read 0 4
  asks 1 f5 to read 0+4
grant 1 7 13 0 24 read
  reads d10 0+4 7.1
give 10 7 1 x61626364
  ok 61626364
# each other status
read 0 4
  asks 1 f5 to read 0+4
deny 1 2 0
  nofile
read 0 4
  asks 2 f5 to read 0+4
deny 2 10059 4294967295
  spent
read 0 4
  asks 3 f5 to read 0+4
deny 3 10059 1
  degraded 1
read 0 4
  asks 4 f5 to read 0+4
deny 4 10063 6
  status 10063 6
read 0 4
  asks 5 f5 to read 0+4
deny 5 22 0
  status 22 0
read 0 4
  asks 6 f5 to read 0+4
deny 6 10050 0
  status 10050 0
# a stripe that lacks no more than its parity is written
file 3 4 0 0 0 2 -hh
write 0 x6162636465666768
  asks 1 f5 to write 0+8
grant 1 7 13 0 24 rw
  writes d11 0+4 7.1 65666768, writes d12 0+4 7.2 0404040c
# one that lacks more is not
file 3 4 0 0 0 2 --h
write 0 x6162636465666768
  asks 1 f5 to write 0+8
grant 1 7 13 0 24 rw
  badlayout credential
";

#[test]
fn a_call_asks_for_its_layout(rt: HostRuntime) {
    play(&rt, rt.alloc(), 1, CASES);
}

// One client, a layout for each line.
const REASONS: &str = "\
# each reason, by the first that applies
layouts 0
read 0 4
  asks 1 f5 to read 0+4
grant 1 7 13 0 24 read
  badlayout unreadable
layouts 2
read 0 4
  asks 2 f5 to read 0+4
grant 2 7 13 0 24 read
  badlayout unreadable
behind 1
layouts 1
read 0 4
  asks 3 f5 to read 0+4
grant 3 7 13 0 24 read
  badlayout unreadable
behind 0
read 0 4
  asks 4 f5 to read 0+4
grant 4 7 13 4 24 read
  badlayout unreadable
index 1
read 0 4
  asks 5 f5 to read 0+4
grant 5 7 13 4 24 read
  badlayout unreadable
read 0 4
  asks 6 f5 to read 0+4
grant 6 7 13 0 24 read
  badlayout index
file 3 4 0 0 0 1 hh
read 0 4
  asks 7 f5 to read 0+4
grant 7 7 13 0 24 read
  badlayout index
index 0
read 0 4
  asks 8 f5 to read 0+4
grant 8 7 13 0 24 read
  badlayout partial
file 4 4 0 0 0 1 hhs
read 0 4
  asks 9 f5 to read 0+4
grant 9 7 13 0 24 read
  badlayout partial
file 3 4 0 0 0 1 hhs
read 0 4
  asks 10 f5 to read 0+4
grant 10 7 13 0 24 read
  badlayout ssv
file 3 0 0 0 0 1 hhs
read 0 4
  asks 11 f5 to read 0+4
grant 11 7 13 0 24 read
  badlayout ssv
file 3 0 0 0 0 1 hhh
read 0 4
  asks 12 f5 to read 0+4
grant 12 7 13 0 24 read
  badlayout map
file 3 0 0 0 0 1 hoh
read 0 4
  asks 13 f5 to read 0+4
grant 13 7 13 0 24 read
  badlayout map
file 3 4 0 0 0 1 hoh
read 0 4
  asks 14 f5 to read 0+4
grant 14 7 13 0 24 read
  badlayout credential
file 3 4 0 0 0 1 fff
read 0 4
  asks 15 f5 to read 0+4
grant 15 7 13 0 24 read
  badlayout credential
file 3 4 0 0 0 1 kkk
read 0 4
  asks 16 f5 to read 0+4
grant 16 7 13 0 24 read
  badlayout credential
file 3 4 0 0 0 1 lll
read 0 4
  asks 17 f5 to read 0+4
grant 17 7 13 0 24 read
  badlayout credential
file 3 4 0 0 0 1 ccc
read 0 4
  asks 18 f5 to read 0+4
grant 18 7 13 0 24 read
  badlayout credential
file 3 4 0 0 0 1 hh-
read 0 4
  asks 19 f5 to read 0+4
grant 19 7 13 0 24 rw
  badlayout credential
file 3 4 0 0 0 1 hhh
write 0 x7a
  asks 20 f5 to write 0+1
grant 20 7 13 0 24 read
  badlayout unreadable
# a missing component is no reason against a read, nor against a write that its parity covers
file 1 4 0 0 0 1 -
read 0 4
  asks 1 f5 to read 0+4
grant 1 7 13 0 24 read
  lost 0
# one layout for each format of capabilities
file 3 4 0 0 0 1 nnn
read 0 4
  asks 1 f5 to read 0+4
grant 1 7 13 0 24 read
  reads d10 0+4 7.1
";

#[test]
fn a_layout_is_refused_by_the_first_that_applies(rt: HostRuntime) {
    play(&rt, rt.alloc(), 1, REASONS);
}
