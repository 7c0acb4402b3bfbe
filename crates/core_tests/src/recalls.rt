use crate::talk::play;

// Cases, each behind what it shows.
const CASES: &str = "\
# before, in and after a read: obeyed at its end, once, and of the held grant alone
recall 1 7
  answers 1 f5 10060
read 0 4
  asks 1 f5 to read 0+4
recall 2 7
  answers 2 f5 10060
grant 1 7 16 0 24 rw
  reads d10 0+4 7.1
recall 3 7
  answers 3 f5 0
recall 4 8
  answers 4 f5 10060
recall 5 7
  answers 5 f5 0
give 10 7 1 x61626364
  asks 2 f5 returns 7, ok 61626364
recall 6 7
  answers 6 f5 10060
read 0 4
awaits
  server
return 1 0 0
return 2 0 0
  asks 3 f5 to read 0+4
next
  4
# an idle client obeys at once
read 0 4
  asks 1 f5 to read 0+4
grant 1 7 16 0 24 rw
  reads d10 0+4 7.1
give 10 7 1 x61626364
  ok 61626364
recall 1 7
  answers 1 f5 0, asks 2 f5 returns 7
return 2 0 0
awaits
  nothing
# in a read of no byte
read 0 4
  asks 1 f5 to read 0+4
grant 1 7 0 0 24 rw
  reads d10 0+0 7.1
recall 1 7
  answers 1 f5 0
give 10 7 1 x
  asks 2 f5 returns 7, ok -
# in a gather and a scatter
file 3 4 0 0 0 2 hhh
write 0 xff
  asks 1 f5 to write 0+1
grant 1 7 16 0 24 rw
  reads d10 0+1 7.1, reads d12 0+1 7.2
recall 1 7
  answers 1 f5 0
give 10 7 1 x01
give 12 7 2 x03
  writes d10 0+1 7.3 ff, writes d12 0+1 7.4 fd
recall 2 7
  answers 2 f5 0
take 10 7 3
take 12 7 4
  asks 2 f5 returns 7, ok 1
# in a commit
write 0 x7a
  asks 1 f5 to write 0+1
grant 1 7 0 0 24 rw
  writes d10 0+1 7.1 7a
take 10 7 1
  asks 2 f5 wrote 0+1 to 0
recall 1 7
  answers 1 f5 0
commit 2 0 1
  asks 3 f5 returns 7, ok 1
# while the grant goes back
read 0 4
  asks 1 f5 to read 0+4
grant 1 7 16 0 24 rw
  reads d10 0+4 7.1
give 10 7 1 x61626364
  ok 61626364
write 16 x7a
  asks 2 f5 returns 7
recall 1 7
  answers 1 f5 10060
# while it goes back with a report
write 0 x7a
  asks 1 f5 to write 0+1
grant 1 7 16 0 24 rw
  writes d10 0+1 7.1 7a
timeout 0
  asks 2 f5 returns 7 Unreachable d10 write 0+1
recall 1 7
  answers 1 f5 10060
# while it goes back for a refused command
read 0 4
  asks 1 f5 to read 0+4
grant 1 7 16 0 24 rw
  reads d10 0+4 7.1
refuse 10 7 1 3 0
  asks 2 f5 returns 7
recall 1 7
  answers 1 f5 10060
return 2 0 0
  refused d10 3 0
# a grant that a drive ended is not returned
read 0 4
  asks 1 f5 to read 0+4
grant 1 7 16 0 24 rw
  reads d10 0+4 7.1
recall 1 7
  answers 1 f5 0
refuse 10 7 1 9 3
  refused d10 9 3
awaits
  nothing
# in the order in which they became due; a call under another grant does not wait
of 6
read 0 4
  asks 1 f6 to read 0+4
grant 1 9 0 0 24 rw
  reads d10 0+0 9.1
give 10 9 1 x
  ok -
of 5
read 0 4
  asks 2 f5 to read 0+4
grant 2 7 0 0 24 rw
  reads d10 0+0 7.1
of 6
recall 1 9
  answers 1 f6 0
of 5
recall 2 7
  answers 2 f5 0
give 10 7 1 x
  asks 3 f6 returns 9, ok -
read 0 4
  reads d10 0+0 7.2
of 6
return 3 0 0
of 5
give 10 7 2 x
  asks 4 f5 returns 7, ok -
# leaving, by file; a client that has a call pending may not
of 6
read 0 4
  asks 1 f6 to read 0+4
leave
  busy
grant 1 9 0 0 24 rw
  reads d10 0+0 9.1
give 10 9 1 x
  ok -
of 5
read 0 4
  asks 2 f5 to read 0+4
grant 2 7 0 0 24 rw
  reads d10 0+0 7.1
give 10 7 1 x
  ok -
leave
  asks 3 f5 returns 7
return 3 0 0
  asks 4 f6 returns 9
return 4 0 0
next
  5
leave
";

#[test]
fn recalls_are_answered_and_obeyed(rt: HostRuntime) {
    play(&rt, rt.alloc(), 1, CASES);
}
