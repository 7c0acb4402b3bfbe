use crate::talk::play;

// Cases, each behind what it shows.
const CASES: &str = "\
# another tag in a read: the grant is over, and nothing goes back
read 0 12
  asks 1 f5 to read 0+12
grant 1 7 16 0 24 read
  reads d10 0+4 7.1, reads d11 0+4 7.2, reads d12 0+4 7.3
give 10 7 1 x61626364
refuse 11 7 2 9 3
  refused d11 9 3
awaits
  nothing
give 12 7 3 x696a6b6c
read 0 1
  asks 2 f5 to read 0+1
# another tag in a gather
file 3 4 0 0 0 2 hhh
write 0 xff
  asks 1 f5 to write 0+1
grant 1 7 16 0 24 rw
  reads d10 0+1 7.1, reads d12 0+1 7.2
refuse 12 7 2 9 3
  refused d12 9 3
read 0 1
  asks 2 f5 to read 0+1
# another tag in a scatter
write 3 x4243
  asks 1 f5 to write 3+2
grant 1 7 16 0 24 rw
  writes d10 3+1 7.1 42, writes d11 0+1 7.2 43
take 10 7 1
refuse 11 7 2 9 3
  refused d11 9 3
awaits
  nothing
write 3 x42
  asks 2 f5 to write 3+1
# in a read: the grant goes back clean
read 0 8
  asks 1 f5 to read 0+8
grant 1 7 16 0 24 read
  reads d10 0+4 7.1, reads d11 0+4 7.2
refuse 11 7 2 3 0
  asks 2 f5 returns 7
give 10 7 1 x61626364
awaits
  server
return 2 0 0
  refused d11 3 0
# in a write before the first WRITE: the same
file 3 4 0 0 0 2 hhh
write 0 xff
  asks 1 f5 to write 0+1
grant 1 7 16 0 24 rw
  reads d10 0+1 7.1, reads d12 0+1 7.2
refuse 10 7 1 2 0
  asks 2 f5 returns 7
return 2 10059 1
  refused d10 2 0
read 0 1
  asks 3 f5 to read 0+1
# after the first WRITE: the refused command is reported
write 3 x4243
  asks 1 f5 to write 3+2
grant 1 7 16 0 24 rw
  writes d10 3+1 7.1 42, writes d11 0+1 7.2 43
refuse 11 7 2 11 5
  asks 2 f5 returns 7 NoSpace d11 write 0+1
take 10 7 1
return 2 0 1
  refused d11 11 5
awaits
  nothing
";

#[test]
fn a_refused_command_ends_the_call(rt: HostRuntime) {
    play(&rt, rt.alloc(), 1, CASES);
}

// One client, a grant for each verdict.
const VERDICTS: &str = "\
# each verdict on a WRITE has its error; no reply has 15, nor one above 17
write 0 x7a
  asks 1 f5 to write 0+1
grant 1 7 16 0 24 rw
  writes d10 0+1 7.1 7a
refuse 10 7 1 1 0
  asks 2 f5 returns 7 BadCred d10 write 0+1
return 2 0 1
  refused d10 1 0
write 0 x7a
  asks 3 f5 to write 0+1
grant 3 8 16 0 24 rw
  writes d10 0+1 8.1 7a
refuse 10 8 1 2 0
  asks 4 f5 returns 8 BadCred d10 write 0+1
return 4 0 1
  refused d10 2 0
write 0 x7a
  asks 5 f5 to write 0+1
grant 5 9 16 0 24 rw
  writes d10 0+1 9.1 7a
refuse 10 9 1 3 0
  asks 6 f5 returns 9 NoAccess d10 write 0+1
return 6 0 1
  refused d10 3 0
write 0 x7a
  asks 7 f5 to write 0+1
grant 7 10 16 0 24 rw
  writes d10 0+1 10.1 7a
refuse 10 10 1 4 0
  asks 8 f5 returns 10 NoAccess d10 write 0+1
return 8 0 1
  refused d10 4 0
write 0 x7a
  asks 9 f5 to write 0+1
grant 9 11 16 0 24 rw
  writes d10 0+1 11.1 7a
refuse 10 11 1 5 0
  asks 10 f5 returns 11 NoAccess d10 write 0+1
return 10 0 1
  refused d10 5 0
write 0 x7a
  asks 11 f5 to write 0+1
grant 11 12 16 0 24 rw
  writes d10 0+1 12.1 7a
refuse 10 12 1 6 0
  asks 12 f5 returns 12 NoAccess d10 write 0+1
return 12 0 1
  refused d10 6 0
write 0 x7a
  asks 13 f5 to write 0+1
grant 13 13 16 0 24 rw
  writes d10 0+1 13.1 7a
refuse 10 13 1 7 0
  asks 14 f5 returns 13 NotFound d10 write 0+1
return 14 0 1
  refused d10 7 0
write 0 x7a
  asks 15 f5 to write 0+1
grant 15 14 16 0 24 rw
  writes d10 0+1 14.1 7a
refuse 10 14 1 8 0
  asks 16 f5 returns 14 Eio d10 write 0+1
return 16 0 1
  refused d10 8 0
write 0 x7a
  asks 17 f5 to write 0+1
grant 17 15 16 0 24 rw
  writes d10 0+1 15.1 7a
refuse 10 15 1 9 0
  refused d10 9 0
write 0 x7a
  asks 18 f5 to write 0+1
grant 18 16 16 0 24 rw
  writes d10 0+1 16.1 7a
refuse 10 16 1 10 0
  asks 19 f5 returns 16 Resource d10 write 0+1
return 19 0 1
  refused d10 10 0
write 0 x7a
  asks 20 f5 to write 0+1
grant 20 17 16 0 24 rw
  writes d10 0+1 17.1 7a
refuse 10 17 1 11 0
  asks 21 f5 returns 17 NoSpace d10 write 0+1
return 21 0 1
  refused d10 11 0
write 0 x7a
  asks 22 f5 to write 0+1
grant 22 18 16 0 24 rw
  writes d10 0+1 18.1 7a
refuse 10 18 1 12 0
  asks 23 f5 returns 18 Resource d10 write 0+1
return 23 0 1
  refused d10 12 0
write 0 x7a
  asks 24 f5 to write 0+1
grant 24 19 16 0 24 rw
  writes d10 0+1 19.1 7a
refuse 10 19 1 13 0
  asks 25 f5 returns 19 Eio d10 write 0+1
return 25 0 1
  refused d10 13 0
write 0 x7a
  asks 26 f5 to write 0+1
grant 26 20 16 0 24 rw
  writes d10 0+1 20.1 7a
refuse 10 20 1 14 0
  asks 27 f5 returns 20 Eio d10 write 0+1
return 27 0 1
  refused d10 14 0
write 0 x7a
  asks 28 f5 to write 0+1
grant 28 21 16 0 24 rw
  writes d10 0+1 21.1 7a
refuse 10 21 1 15 0
take 10 21 1
  ok 1
recall 1 21
  answers 1 f5 0, asks 29 f5 returns 21
return 29 0 0
write 0 x7a
  asks 30 f5 to write 0+1
grant 30 22 16 0 24 rw
  writes d10 0+1 22.1 7a
refuse 10 22 1 16 0
  asks 31 f5 returns 22 Eio d10 write 0+1
return 31 0 1
  refused d10 16 0
write 0 x7a
  asks 32 f5 to write 0+1
grant 32 23 16 0 24 rw
  writes d10 0+1 23.1 7a
refuse 10 23 1 17 0
  asks 33 f5 returns 23 Eio d10 write 0+1
return 33 0 1
  refused d10 17 0
write 0 x7a
  asks 34 f5 to write 0+1
grant 34 24 16 0 24 rw
  writes d10 0+1 24.1 7a
refuse 10 24 1 18 0
take 10 24 1
  ok 1
recall 1 24
  answers 1 f5 0, asks 35 f5 returns 24
return 35 0 0
";

#[test]
fn each_verdict_is_reported_as_its_error(rt: HostRuntime) {
    play(&rt, rt.alloc(), 1, VERDICTS);
}
