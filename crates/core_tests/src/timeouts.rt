use crate::talk::play;

// Cases, each behind what it shows.
const CASES: &str = "\
# before the first WRITE: the gather goes on without it, and it is reported once all is written
file 3 4 0 0 0 2 hhh
write 0 xff
  asks 1 f5 to write 0+1
grant 1 7 16 0 24 rw
  reads d10 0+1 7.1, reads d12 0+1 7.2
timeout 1
timeout 2
  reads d11 0+1 7.3
give 12 7 2 x04
give 10 7 1 x01
give 11 7 3 x05
  writes d10 0+1 7.4 ff
take 10 7 4
  asks 2 f5 returns 7 Unreachable d12 read 0+1
return 2 0 1
  ok 1
# after the first WRITE: it is reported, and the grant went back with the report
file 3 4 0 0 0 2 hhh
write 0 x1112131415161718
  asks 1 f5 to write 0+8
grant 1 7 16 0 24 rw
  writes d10 0+4 7.1 11121314, writes d11 0+4 7.2 15161718, writes d12 0+4 7.3 0404040c
take 10 7 1
timeout 1
take 11 7 2
take 12 7 3
  asks 2 f5 returns 7 Unreachable d11 write 0+4
return 2 0 1
  ok 8
read 0 1
  asks 3 f5 to read 0+1
# a report that is not taken as a loss
file 3 4 0 0 0 2 hhh
write 0 x0000000000000000
  asks 1 f5 to write 0+8
grant 1 7 16 0 24 rw
  writes d10 0+4 7.1 00000000, writes d11 0+4 7.2 00000000, writes d12 0+4 7.3 00000000
take 10 7 1
take 12 7 3
timeout 1
  asks 2 f5 returns 7 Unreachable d11 write 0+4
return 2 0 0
  silent 1
# a report that is refused
file 3 4 0 0 0 2 hhh
write 0 x0000000000000000
  asks 1 f5 to write 0+8
grant 1 7 16 0 24 rw
  writes d10 0+4 7.1 00000000, writes d11 0+4 7.2 00000000, writes d12 0+4 7.3 00000000
take 10 7 1
take 12 7 3
timeout 1
  asks 2 f5 returns 7 Unreachable d11 write 0+4
return 2 10059 4294967295
  silent 1
# too much is out before the first WRITE: the grant stays
file 3 4 0 0 0 2 hhh
write 0 xff
  asks 1 f5 to write 0+1
grant 1 7 16 0 24 rw
  reads d10 0+1 7.1, reads d12 0+1 7.2
timeout 2
  reads d11 0+1 7.3
timeout 1
  silent 1
awaits
  nothing
give 10 7 1 x01
read 0 1
  reads d10 0+1 7.4
# too much is out after it: the grant goes back with a report
write 3 x4243
  asks 1 f5 to write 3+2
grant 1 7 16 0 24 rw
  writes d10 3+1 7.1 42, writes d11 0+1 7.2 43
timeout 0
  asks 2 f5 returns 7 Unreachable d10 write 3+1
awaits
  server
take 11 7 2
return 2 0 1
  silent 0
read 0 1
  asks 3 f5 to read 0+1
# the second one makes it too much, and both are reported
file 3 4 0 0 0 2 hhh
write 0 x0000000000000000
  asks 1 f5 to write 0+8
grant 1 7 16 0 24 rw
  writes d10 0+4 7.1 00000000, writes d11 0+4 7.2 00000000, writes d12 0+4 7.3 00000000
timeout 1
timeout 0
  asks 2 f5 returns 7 Unreachable d10 write 0+4 Unreachable d11 write 0+4
return 2 0 0
  silent 0
# one before the first WRITE and one after
file 3 4 0 0 0 2 hhh
write 0 xff
  asks 1 f5 to write 0+1
grant 1 7 16 0 24 rw
  reads d10 0+1 7.1, reads d12 0+1 7.2
timeout 2
  reads d11 0+1 7.3
give 11 7 3 x05
give 10 7 1 x01
  writes d10 0+1 7.4 ff
timeout 0
  asks 2 f5 returns 7 Unreachable d10 write 0+1 Unreachable d12 read 0+1
return 2 0 1
  silent 0
# P and Q bear two, and the report names both
file 4 2 0 0 0 4 hhhh
write 0 x01020304
  asks 1 f5 to write 0+4
grant 1 7 16 0 24 rw
  writes d10 0+2 7.1 0102, writes d11 0+2 7.2 0304, writes d12 0+2 7.3 0206, writes d13 0+2 7.4 070a
timeout 3
take 11 7 2
timeout 0
take 12 7 3
  asks 2 f5 returns 7 Unreachable d10 write 0+2 Unreachable d13 write 0+2
return 2 0 0
  silent 0
# further WRITEs to the component are left, and the first is reported
file 3 4 0 0 0 2 hhh
write 0 x61616161626262626363636364646464
  asks 1 f5 to write 0+16
grant 1 7 16 0 24 rw
  writes d10 0+4 7.1 61616161, writes d11 0+4 7.2 62626262, writes d12 0+4 7.3 03030303
take 12 7 3
  writes d12 4+4 7.4 07070707
timeout 1
take 10 7 1
  writes d10 4+4 7.5 63636363
take 10 7 5
take 12 7 4
  asks 2 f5 returns 7 Unreachable d11 write 0+4
# the next replica is read, and the one that timed out is not written
file 6 4 0 0 1 2 hhhhhh
write 0 x11
  asks 1 f5 to write 0+1
grant 1 7 16 0 24 rw
  reads d10 0+1 7.1, reads d14 0+1 7.2
timeout 0
  reads d11 0+1 7.3
give 14 7 2 x0a
give 11 7 3 x01
  writes d11 0+1 7.4 11, writes d14 0+1 7.5 1a, writes d15 0+1 7.6 1a
take 11 7 4
take 14 7 5
take 15 7 6
  asks 2 f5 returns 7 Unreachable d10 read 0+1
return 2 0 1
  ok 1
# the new size is told first, then the loss
file 3 4 0 0 0 2 hhh
write 0 x0000000000000000
  asks 1 f5 to write 0+8
grant 1 7 0 0 24 rw
  writes d10 0+4 7.1 00000000, writes d11 0+4 7.2 00000000, writes d12 0+4 7.3 00000000
timeout 2
take 10 7 1
take 11 7 2
  asks 2 f5 wrote 0+8 to 7
commit 2 0 8
  asks 3 f5 returns 7 Unreachable d12 write 0+4
return 3 0 1
  ok 8
# a size that is not taken ends the call without a report
file 3 4 0 0 0 2 hhh
write 0 x0000000000000000
  asks 1 f5 to write 0+8
grant 1 7 0 0 24 rw
  writes d10 0+4 7.1 00000000, writes d11 0+4 7.2 00000000, writes d12 0+4 7.3 00000000
timeout 2
take 10 7 1
take 11 7 2
  asks 2 f5 wrote 0+8 to 7
commit 2 10050 0
  status 10050 0
awaits
  nothing
";

#[test]
fn writes_go_on_without_a_component_or_end_silent(rt: HostRuntime) {
    play(&rt, rt.alloc(), 1, CASES);
}
