use crate::talk::play;

// Cases, each behind what it shows.
const CASES: &str = "\
# past the size: to each component one WRITE at a time, and behind the last one the new size
write 3 x6162636465666768696a
  asks 1 f5 to write 3+10
grant 1 7 0 0 24 rw
  writes d10 3+1 7.1 61, writes d11 0+4 7.2 62636465, writes d12 0+4 7.3 66676869
take 11 7 2
take 10 7 1
  writes d10 4+1 7.4 6a
take 12 7 3
resend
  writes d10 4+1 7.4 6a
take 10 7 4
  asks 2 f5 wrote 3+10 to 12
awaits
  server
resend
  asks 2 f5 wrote 3+10 to 12
commit 2 0 13
  ok 10
write 0 x7a
  writes d10 0+1 7.5 7a
take 10 7 5
  ok 1
write 5 x
  ok 0
awaits
  nothing
# a commit that is refused
write 0 x7a
  asks 1 f5 to write 0+1
grant 1 7 0 0 24 rw
  writes d10 0+1 7.1 7a
take 10 7 1
  asks 2 f5 wrote 0+1 to 0
commit 2 22 0
  status 22 0
read 0 1
  reads d10 0+0 7.2
# a commit that is refused since the grant is over
write 0 x7a
  asks 1 f5 to write 0+1
grant 1 7 0 0 24 rw
  writes d10 0+1 7.1 7a
take 10 7 1
  asks 2 f5 wrote 0+1 to 0
commit 2 10050 0
  status 10050 0
read 0 1
  asks 3 f5 to read 0+1
# a grant that is not extending does not cover a write past the size
write 15 x7a
  asks 1 f5 to write 15+1
grant 1 7 16 0 24 rw
  writes d10 7+1 7.1 7a
take 10 7 1
  ok 1
write 15 x797a
  asks 2 f5 returns 7
return 2 0 0
  asks 3 f5 to write 15+2
awaits
  server
# one for reading covers no write
read 0 1
  asks 1 f5 to read 0+1
grant 1 7 16 0 24 read
  reads d10 0+1 7.1
give 10 7 1 x61
  ok 61
write 0 x7a
  asks 2 f5 returns 7
# both replicas of each position
file 4 4 0 0 1 1 hhhh
write 2 x61626364
  asks 1 f5 to write 2+4
grant 1 7 16 0 24 rw
  writes d10 2+2 7.1 6162, writes d11 2+2 7.2 6162, writes d12 0+2 7.3 6364, writes d13 0+2 7.4 6364
take 10 7 1
take 12 7 3
take 13 7 4
take 11 7 2
  ok 4
# a part of a stripe: the parity changes as the data do
file 3 4 0 0 0 2 hhh
write 2 x11224488
  asks 1 f5 to write 2+4
grant 1 7 16 0 24 rw
  reads d10 2+2 7.1, reads d11 0+2 7.2, reads d12 0+4 7.3
give 10 7 1 x0102
give 12 7 3 xf0f1f2f3
give 11 7 2 x0408
  writes d10 2+2 7.4 1122, writes d11 0+2 7.5 4488, writes d12 0+4 7.6 b071e2d3
take 10 7 4
take 11 7 5
take 12 7 6
  ok 4
# touched columns in two intervals are two WRITEs of parity
file 3 4 0 0 0 2 hhh
write 3 x1122
  asks 1 f5 to write 3+2
grant 1 7 16 0 24 rw
  reads d10 3+1 7.1, reads d11 0+1 7.2, reads d12 0+1 7.3, reads d12 3+1 7.4
give 10 7 1 x01
give 12 7 4 xb0
give 12 7 3 xa0
give 11 7 2 x02
  writes d10 3+1 7.5 11, writes d11 0+1 7.6 22, writes d12 0+1 7.7 80
take 12 7 7
  writes d12 3+1 7.8 a0
take 10 7 5
take 12 7 8
take 11 7 6
  ok 2
# the end of a stripe, and a whole one, under a rotating parity
file 4 2 0 0 0 3 hhhh
write 5 x50010203040506
  asks 1 f5 to write 5+7
grant 1 7 16 0 24 rw
  reads d12 1+1 7.1, reads d13 1+1 7.2
give 13 7 2 x0f
give 12 7 1 x05
  writes d12 1+1 7.3 50, writes d13 1+1 7.4 5a, writes d10 2+2 7.5 0304, writes d11 2+2 7.6 0506
take 13 7 4
  writes d13 2+2 7.7 0102
take 12 7 3
  writes d12 2+2 7.8 0700
take 10 7 5
take 11 7 6
take 13 7 7
take 12 7 8
  ok 7
# a part of a stripe under P and Q
file 4 2 0 0 0 4 hhhh
write 1 x0300
  asks 1 f5 to write 1+2
grant 1 7 16 0 24 rw
  reads d10 1+1 7.1, reads d11 0+1 7.2, reads d12 0+2 7.3, reads d13 0+2 7.4
give 10 7 1 x01
give 11 7 2 x80
give 12 7 3 xaabb
give 13 7 4 xccdd
  writes d10 1+1 7.5 03, writes d11 0+1 7.6 00, writes d12 0+2 7.7 2ab9, writes d13 0+2 7.8 d1df
take 10 7 5
take 11 7 6
take 12 7 7
take 13 7 8
  ok 2
# a whole stripe under P and Q
file 4 2 0 0 0 4 hhhh
write 0 x01020304
  asks 1 f5 to write 0+4
grant 1 7 16 0 24 rw
  writes d10 0+2 7.1 0102, writes d11 0+2 7.2 0304, writes d12 0+2 7.3 0206, writes d13 0+2 7.4 070a
# parity and mirrors: READs of first replicas, WRITEs to all
file 6 4 0 0 1 2 hhhhhh
write 0 x11
  asks 1 f5 to write 0+1
grant 1 7 16 0 24 rw
  reads d10 0+1 7.1, reads d14 0+1 7.2
give 10 7 1 x01
give 14 7 2 x0a
  writes d10 0+1 7.3 11, writes d11 0+1 7.4 11, writes d14 0+1 7.5 1a, writes d15 0+1 7.6 1a
# each stripe in its group; bytes that were never written are 0
file 6 4 3 1 0 2 hhhhhh
write 6 x01020304
  asks 1 f5 to write 6+4
grant 1 7 16 0 24 rw
  reads d11 2+2 7.1, reads d12 2+2 7.2, reads d13 0+2 7.3, reads d15 0+2 7.4
give 11 7 1 x
give 12 7 2 x
give 13 7 3 x
give 15 7 4 x
  writes d11 2+2 7.5 0102, writes d12 2+2 7.6 0102, writes d13 0+2 7.7 0304, writes d15 0+2 7.8 0304
# another data position is missing
file 3 4 0 0 0 2 h-h
write 0 xff
  asks 1 f5 to write 0+1
grant 1 7 16 0 24 rw
  reads d10 0+1 7.1, reads d12 0+1 7.2
give 10 7 1 x01
give 12 7 2 x03
  writes d10 0+1 7.3 ff, writes d12 0+1 7.4 fd
take 12 7 4
take 10 7 3
  ok 1
# the parity is missing
file 3 4 0 0 0 2 hh-
write 0 xff
  asks 1 f5 to write 0+1
grant 1 7 16 0 24 rw
  reads d10 0+1 7.1, reads d11 0+1 7.2
give 10 7 1 x01
give 11 7 2 x03
  writes d10 0+1 7.3 ff
take 10 7 3
  ok 1
# the position that is written is missing
file 3 4 0 0 0 2 h-h
write 4 xff
  asks 1 f5 to write 4+1
grant 1 7 16 0 24 rw
  reads d10 0+1 7.1, reads d12 0+1 7.2
give 10 7 1 x01
give 12 7 2 x03
  writes d12 0+1 7.3 fe
take 12 7 3
  ok 1
";

#[test]
fn writes_gather_and_scatter_under_each_scheme(rt: HostRuntime) {
    play(&rt, rt.alloc(), 1, CASES);
}
