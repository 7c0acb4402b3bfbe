use crate::talk::play;

// Cases, each behind what it shows.
const CASES: &str = "\
# two stripes, and a further read under the same grant; bytes that a reply does not carry are 0
read 0 20
  asks 1 f5 to read 0+20
awaits
  server
grant 1 7 13 0 24 read
  reads d10 0+4 7.1, reads d11 0+4 7.2, reads d12 0+4 7.3, reads d10 4+1 7.4
give 12 7 3 x6768696a
give 11 7 4 x78
give 10 7 4 x6b
awaits
  component 0
give 10 7 1 x
give 11 7 2 x636465
  ok 00000000636465006768696a6b
awaits
  nothing
read 12 5
  reads d10 4+1 7.5
give 10 7 5 x6b
  ok 6b
# a grant that has not the bytes goes back first
read 11 1
  asks 1 f5 to read 11+1
grant 1 7 13 0 12 read
  reads d12 3+1 7.1
give 12 7 1 x6a
  ok 6a
read 11 2
  asks 2 f5 returns 7
return 2 0 0
  asks 3 f5 to read 11+2
grant 3 7 13 0 24 read
  reads d12 3+1 7.1, reads d10 4+1 7.2
# a component that times out is asked no more, and its late reply is not taken
file 4 4 0 0 1 1 hhhh
read 0 8
  asks 1 f5 to read 0+8
grant 1 7 13 0 24 read
  reads d10 0+4 7.1, reads d12 0+4 7.2
timeout 1
timeout 2
  reads d13 0+4 7.3
give 12 7 2 x45464748
awaited 7 2
awaited 7 3
  3
give 13 7 3 x65666768
give 10 7 1 x61626364
  ok 6162636465666768
# both replicas are out
file 4 4 0 0 1 1 hhhh
read 0 8
  asks 1 f5 to read 0+8
grant 1 7 13 0 24 read
  reads d10 0+4 7.1, reads d12 0+4 7.2
timeout 2
  reads d13 0+4 7.3
timeout 3
  lost 1
# one position is out, and touched columns make one interval
file 3 4 0 0 0 2 hhh
read 2 4
  asks 1 f5 to read 2+4
grant 1 7 13 0 24 read
  reads d10 2+2 7.1, reads d11 0+2 7.2
timeout 0
  reads d11 2+2 7.3, reads d12 0+4 7.4
resend
  reads d11 0+2 7.2, reads d11 2+2 7.3, reads d12 0+4 7.4
give 11 7 2 x1020
give 12 7 4 x11223344
give 11 7 3 x3040
  ok 03041020
# one position is out, and touched columns make two intervals
file 3 4 0 0 0 2 hhh
read 3 2
  asks 1 f5 to read 3+2
grant 1 7 13 0 24 read
  reads d10 3+1 7.1, reads d11 0+1 7.2
give 11 7 2 x20
timeout 0
  reads d11 3+1 7.3, reads d12 0+1 7.4, reads d12 3+1 7.5
give 12 7 4 x30
give 12 7 5 x55
give 11 7 3 x15
  ok 4020
# two positions are out, under P and Q
file 4 2 0 0 0 4 hhhh
read 0 4
  asks 1 f5 to read 0+4
grant 1 7 13 0 24 read
  reads d10 0+2 7.1, reads d11 0+2 7.2
timeout 1
  reads d12 0+2 7.3, reads d13 0+2 7.4
timeout 0
give 13 7 4 x070a
give 12 7 3 x0206
  ok 01020304
# three positions are out
file 4 2 0 0 0 4 hhhh
read 0 4
  asks 1 f5 to read 0+4
grant 1 7 13 0 24 read
  reads d10 0+2 7.1, reads d11 0+2 7.2
timeout 1
  reads d12 0+2 7.3, reads d13 0+2 7.4
timeout 0
timeout 2
  lost 0 1 2
# a data position of which no byte is wanted is out
file 4 2 0 0 0 4 hhhh
read 0 2
  asks 1 f5 to read 0+2
grant 1 7 13 0 24 read
  reads d10 0+2 7.1
timeout 1
give 10 7 1 x6162
  ok 6162
# a read of no byte sends one READ of none
file 3 4 0 0 0 2 hhh
start 8
read 0 4
  asks 1 f5 to read 0+4
grant 1 7 0 0 24 read
  reads d10 8+0 7.1
give 10 7 1 x
  ok -
read 16777216 0
  reads d10 8+0 7.2
timeout 0
  reads d11 8+0 7.3, reads d12 8+0 7.4
give 11 7 3 x
give 12 7 4 x
  ok -
awaits
  nothing
# the same behind the last byte that a file may have
file 3 4 0 0 0 2 hhh
start 8
read 16777216 0
  asks 1 f5 to read 16777215+1
grant 1 7 0 0 24 read
  reads d10 8+0 7.1
timeout 0
  reads d11 8+0 7.2, reads d12 8+0 7.3
timeout 1
  lost 0 1
# the same where the first component is missing
file 3 4 0 0 0 2 -hh
start 8
read 0 4
  asks 1 f5 to read 0+4
grant 1 7 0 0 24 read
  reads d11 8+0 7.1
timeout 1
  lost 0 1
# and where all are
file 3 4 0 0 0 1 ---
read 0 4
  asks 1 f5 to read 0+4
grant 1 7 0 0 24 read
  lost 0 1 2
";

#[test]
fn reads_ask_what_they_need_and_end_so(rt: HostRuntime) {
    play(&rt, rt.alloc(), 1, CASES);
}
